// Why a call leaves everything as it is, and what the calls that write into a lent output answer.
#![tactic(auto)]

ghost use Rattle.std.specs.Prelude.{◌≡◌};
ghost use Rattle.replies.specs.Output.{IsRefusal, IsSuccess, written};
ghost use Rattle.replies.specs.Refusal.{Decodes, HasNumber};

use std::error::Error;
use std::fmt;

// Numbers, since they stand in fields of C's structs; specs/Reply.antt says what each means, under the same name.
pub const SUCCESS: u32 = 0;

pub const HELD: u32 = 0;

pub const WHOLE: u32 = 1;

// Why a call changes nothing: the exact repeat of a packet, which asks for nothing more, or a refusal. Each has the number that C is
// answered.
#[derive(Clone, Copy, Debug, PartialEq, Eq)]
pub enum Refusal {
    Again = 2,
    RoomOutside = 7,
    AreaNotRoom = 8,
    NotWellFormed = 9,
    TooShort = 10,
    TooLong = 11,
    OtherVersion = 12,
    // The payload type is not JPEG's, 26.
    OtherPayload = 13,
    OtherSource = 14,
    // The type is not 0, 1, 64 or 65.
    OtherType = 15,
    OtherTypeSpecific = 16,
    // Q is 0, or 100 to 127.
    QReserved = 17,
    SideZero = 18,
    IntervalZero = 19,
    TableRule = 20,
    NoScan = 21,
    // The packet is older than the picture held, 2^31 away from it, or of a picture that is whole.
    Past = 22,
    // Type, Q, width, height or interval is unlike the picture's.
    Unlike = 23,
    Beyond = 24,
    Clash = 25,
    Full = 26,
    // The packet brings no tables, and none are kept for its Q.
    Bare = 27,
    NotWhole = 30,
    FileOutput = 31,
    // No tables are made for this Q: it is not 1 to 99.
    QNotMade = 34,
    TablesOutput = 35,
    Parameters = 40,
    ScanLength = 41,
    PacketSize = 42,
    SentTables = 43,
    Over64Packets = 44,
    IndexTooLarge = 45,
    PacketOutput = 46,
}

impl Refusal {
    // The number that C is answered.
    pub fn number(self) -> u32
        ensures { HasNumber self result }
    {
        self as u32
    }
}

// A number that no refusal has.
#[derive(Clone, Copy, Debug, PartialEq, Eq)]
pub struct NoRefusal(pub u32);

impl TryFrom<u32> for Refusal {
    type Error = NoRefusal;

    ghost try_from_gives = { Decodes };

    fn try_from(number: u32) -> Result<Self, NoRefusal> {
        match number {
            2 => Ok(Refusal::Again),
            7 => Ok(Refusal::RoomOutside),
            8 => Ok(Refusal::AreaNotRoom),
            9 => Ok(Refusal::NotWellFormed),
            10 => Ok(Refusal::TooShort),
            11 => Ok(Refusal::TooLong),
            12 => Ok(Refusal::OtherVersion),
            13 => Ok(Refusal::OtherPayload),
            14 => Ok(Refusal::OtherSource),
            15 => Ok(Refusal::OtherType),
            16 => Ok(Refusal::OtherTypeSpecific),
            17 => Ok(Refusal::QReserved),
            18 => Ok(Refusal::SideZero),
            19 => Ok(Refusal::IntervalZero),
            20 => Ok(Refusal::TableRule),
            21 => Ok(Refusal::NoScan),
            22 => Ok(Refusal::Past),
            23 => Ok(Refusal::Unlike),
            24 => Ok(Refusal::Beyond),
            25 => Ok(Refusal::Clash),
            26 => Ok(Refusal::Full),
            27 => Ok(Refusal::Bare),
            30 => Ok(Refusal::NotWhole),
            31 => Ok(Refusal::FileOutput),
            34 => Ok(Refusal::QNotMade),
            35 => Ok(Refusal::TablesOutput),
            40 => Ok(Refusal::Parameters),
            41 => Ok(Refusal::ScanLength),
            42 => Ok(Refusal::PacketSize),
            43 => Ok(Refusal::SentTables),
            44 => Ok(Refusal::Over64Packets),
            45 => Ok(Refusal::IndexTooLarge),
            46 => Ok(Refusal::PacketOutput),
            _ => Err(NoRefusal(number)),
        }
    }
}

impl fmt::Display for Refusal {
    fn fmt<W: fmt::Write>(&self, f: &mut fmt::Formatter<W>) -> fmt::Result {
        f.write_str(match self {
            Refusal::Again => "repeated",
            Refusal::RoomOutside => "room not 1 to 65,536 bytes",
            Refusal::AreaNotRoom => "area not as long as the room",
            Refusal::NotWellFormed => "receiver not well formed",
            Refusal::TooShort => "too short, or wrongly padded",
            Refusal::TooLong => "over 2,048 bytes",
            Refusal::OtherVersion => "RTP version not 2",
            Refusal::OtherPayload => "payload type not JPEG's",
            Refusal::OtherSource => "another source",
            Refusal::OtherType => "type not carried",
            Refusal::OtherTypeSpecific => "type-specific byte not 0",
            Refusal::QReserved => "reserved Q",
            Refusal::SideZero => "width or height 0",
            Refusal::IntervalZero => "restart interval 0",
            Refusal::TableRule => "table rule broken",
            Refusal::NoScan => "no scan data",
            Refusal::Past => "picture past, or whole already",
            Refusal::Unlike => "unlike its picture",
            Refusal::Beyond => "beyond the room",
            Refusal::Clash => "clash with what is held",
            Refusal::Full => "64 fragments held",
            Refusal::Bare => "no tables for its Q",
            Refusal::NotWhole => "picture not whole",
            Refusal::FileOutput => "output shorter than the file",
            Refusal::QNotMade => "no tables made for this Q",
            Refusal::TablesOutput => "output under 128 bytes",
            Refusal::Parameters => "type, Q, side or interval not to be sent",
            Refusal::ScanLength => "scan not 1 to 65,536 bytes",
            Refusal::PacketSize => "packet size not 192 to 1,472",
            Refusal::SentTables => "tables not those of its Q",
            Refusal::Over64Packets => "over 64 packets",
            Refusal::IndexTooLarge => "no packet of this index",
            Refusal::PacketOutput => "output shorter than the packet",
        })
    }
}

impl Error for Refusal {}

impl fmt::Display for NoRefusal {
    fn fmt<W: fmt::Write>(&self, f: &mut fmt::Formatter<W>) -> fmt::Result {
        write!(f, "no refusal has the number {}", self.0)
    }
}

impl Error for NoRefusal {}

// What table making, the sender and the builder answer C: a reply, and the length written.
#[repr(C)]
#[derive(Clone, Copy)]
pub struct Written {
    pub reply: u32,
    pub length: u32,
}

impl Written {
    pub fn refusal(number: u32) -> Self
        ensures { IsRefusal number result }
    {
        Self {
            reply: number,
            length: 0,
        }
    }

    pub fn success(length: u32) -> Self
        ensures { IsSuccess length result }
    {
        Self {
            reply: SUCCESS,
            length,
        }
    }
}

impl From<Result<u32, Refusal>> for Written {
    ghost from_gives = { λ outcome w. w ≡ written outcome };

    fn from(outcome: Result<u32, Refusal>) -> Self {
        match outcome {
            Ok(length) => Written::success(length),
            Err(refusal) => Written::refusal(refusal.number()),
        }
    }
}
