// Runs the cases on standard input, a line each, and writes each case with what it gives.
// A line that is empty or begins with # is copied, and one that is no case gives a question mark.
#![tactic(auto)]

mod file_case;
mod hex;
mod history_case;
mod made_up;
mod packet_case;
mod sent_case;
mod state_case;
mod tables_case;
mod text;
mod written;

use crate::history_case::Session;

fn main(rt: HostRuntime) {
    let mut input = rt.stdin();
    let mut area = [7u8; 65536];
    let mut buffer = [0u8; 4096];
    let mut session = history_case::first();
    // A proved loop ends, and nothing says that the input does: no run uses up these turns.
    for _ in 0..u64::MAX {
        let Some(line) = text::read_line(&mut input, &mut buffer) else {
            break;
        };
        let _ = rt.write_all(line);
        answer(&rt, line, &mut session, &mut area);
        let _ = rt.write_all(b"\n");
    }
}

fn answer(rt: &impl Print, line: &[u8], session: &mut Session, area: &mut [u8]) {
    if line.is_empty() || line[0] == b'#' {
        return;
    }
    let _ = rt.write_all(b" ->");
    if run_case(rt, line, session, area).is_none() {
        let _ = rt.write_all(b" ?");
    }
}

// Each kind of case answers None to a line that is none of its own.
fn run_case(rt: &impl Print, line: &[u8], session: &mut Session, area: &mut [u8]) -> Option<()> {
    tables_case::run(rt, line)
        .or_else(|| packet_case::run(rt, line))
        .or_else(|| sent_case::run(rt, line))
        .or_else(|| state_case::run(rt, line))
        .or_else(|| history_case::run(rt, line, session, area))
}
