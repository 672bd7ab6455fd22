// Theorems over the definitions of the crates below. Each is the contract of a function that does nothing.
#![tactic(auto)]

ghost use Rattle.demands.specs.Begun.{BeginningsStart, StartsBegin, BegunWholeOrGivenUp, TallyOfAllBegun};
ghost use Rattle.demands.specs.BothSides.{BothSides};
ghost use Rattle.demands.specs.Demand3.{SentDelivery, CutDelivery, StepsDeliver, CutPackets, PacketsSent, HistoriesAsBrought, StepsAsBrought, ToldAsBrought, ShownAsBrought};
ghost use Rattle.demands.specs.Determined.{RefusalIsDetermined, SuccessIsDetermined, RefusalNumberIsDetermined, OutcomesAreTold, MakeTablesIsDetermined, ReadIsDetermined, ScanIsDetermined, TablesIsDetermined, RestartsOfIsDetermined, TableSourceIsDetermined, IsLawfulIsDetermined, AreFullIsDetermined, PartIsDetermined, PutIsDetermined, AreSameIsDetermined, PacketIsDetermined, NoFragmentsIsDetermined, SurveyIsDetermined, PlaceIsDetermined, InsertIsDetermined, NoneIsDetermined, HasIsDetermined, FindIsDetermined, KeepIsDetermined, WellKeptIsDetermined, IsBlankIsDetermined, OpensIsDetermined, InspectIsDetermined, WholeFlagIsDetermined, ReceiveIsDetermined, ReceiveInPlaceIsDetermined, HeadLengthIsDetermined, PutHeadIsDetermined, BuildIsDetermined, RecordLengthIsDetermined, TakeRecordIsDetermined, TakeNextIsDetermined, NoCountsIsDetermined, AddCountIsDetermined, CloseCountsIsDetermined, AcceptedIsDetermined, NumberIsDetermined, FileNameIsDetermined};
ghost use Rattle.demands.specs.FileCases.{FileCases};
ghost use Rattle.demands.specs.GivenUp.{GivenUpForAnother, AnotherGivesUp, RepliesHavePlaces};
ghost use Rattle.demands.specs.History.{ThereAreHistories, CallsGoOn, RecordsAreCalls, NextRecordsAreCalls, RecordsAreOfBytes};
ghost use Rattle.demands.specs.Reachable.{HistoriesReach, BuilderRefusesNeither, HistoriesAreSteps};
ghost use Rattle.demands.specs.Refusals.{TablesRefuse, SenderRefuses, BuilderRefuses, ReaderRefuses, OpeningRefuses, ReceiverRefuses, CallsLeaveAll, RecordsLeaveAll, NextRecordsLeaveAll};
ghost use Rattle.demands.specs.ShutOut.{RefusingIsOut, SayingHeldIsOut, NeverWritingIsOut, ClaimingIsOut, ClaimedFilesAreOut, ConstantIsOut, InventedIsOut, CountByPacketIsOut, StepsCountHeld, SenderCutsAsSaid};
ghost use Rattle.demands.specs.Transcript.{Transcript};
ghost use Rattle.demands.specs.TwoPackets.{TranscriptDelivered, SentDelivered, TranscriptAsBrought, AnotherStartedLater, Computed};
ghost use Rattle.std.specs.Prelude.{ℕ, List};
ghost use Rattle.demands.specs.History.{State, History};
ghost use Rattle.state.specs.declared.Answer.{Answer};
ghost use Rattle.state.specs.declared.Receiver.{Receiver};
ghost use Rattle.wire.specs.declared.Packet.{Packet};

/// Calls of the receiver, one after the other, are histories; calls of `records::take` and of `records::take_next` are such calls.
pub fn histories()
    ensures there_are { (source room : ℕ) (area : List ℕ) (packets : List (List ℕ))
        → ThereAreHistories source room area packets }
    ensures going_on { CallsGoOn }
    ensures records { RecordsAreCalls }
    ensures next_records { NextRecordsAreCalls }
    ensures of_bytes { RecordsAreOfBytes }
{}

/// What every history leaves, and was answered.
pub fn reaches()
    ensures left { HistoriesReach }
    ensures built { BuilderRefusesNeither }
    ensures steps { (source room : ℕ) (packets : List (List ℕ)) (answered : List Answer) (x : State) (h : History source room packets answered x)
        → HistoriesAreSteps h }
{}

/// A refusal has a number, hands back the receiver it was given, and changes no lent byte.
pub fn refuses()
    ensures make_tables { TablesRefuse }
    ensures packet { SenderRefuses }
    ensures build { BuilderRefuses }
    ensures read { ReaderRefuses }
    ensures opens { OpeningRefuses }
    ensures receive { ReceiverRefuses }
    ensures calls { CallsLeaveAll }
    ensures take_record { RecordsLeaveAll }
    ensures take_next { NextRecordsLeaveAll }
{}

/// Any two outcomes that meet a contract, at the same inputs, are equal.
pub fn determines()
    ensures refusal { RefusalIsDetermined }
    ensures success { SuccessIsDetermined }
    ensures refusal_number { RefusalNumberIsDetermined }
    ensures outcomes { OutcomesAreTold }
    ensures make_tables { MakeTablesIsDetermined }
    ensures read { ReadIsDetermined }
    ensures scan { ScanIsDetermined }
    ensures tables { TablesIsDetermined }
    ensures restarts_of { RestartsOfIsDetermined }
    ensures table_source { TableSourceIsDetermined }
    ensures is_lawful { IsLawfulIsDetermined }
    ensures are_full { AreFullIsDetermined }
    ensures part { PartIsDetermined }
    ensures put { PutIsDetermined }
    ensures are_same { AreSameIsDetermined }
    ensures packet { PacketIsDetermined }
    ensures no_fragments { NoFragmentsIsDetermined }
    ensures survey { SurveyIsDetermined }
    ensures place { PlaceIsDetermined }
    ensures insert { InsertIsDetermined }
    ensures none { NoneIsDetermined }
    ensures has { HasIsDetermined }
    ensures find { FindIsDetermined }
    ensures keep { KeepIsDetermined }
    ensures well_kept { WellKeptIsDetermined }
    ensures is_blank { IsBlankIsDetermined }
    ensures opens { OpensIsDetermined }
    ensures inspect { InspectIsDetermined }
    ensures whole_flag { WholeFlagIsDetermined }
    ensures receive { ReceiveIsDetermined }
    ensures receive_in_place { ReceiveInPlaceIsDetermined }
    ensures head_length { HeadLengthIsDetermined }
    ensures put_head { PutHeadIsDetermined }
    ensures build { BuildIsDetermined }
    ensures record_length { RecordLengthIsDetermined }
    ensures take_record { TakeRecordIsDetermined }
    ensures take_next { TakeNextIsDetermined }
    ensures no_counts { NoCountsIsDetermined }
    ensures add_count { AddCountIsDetermined }
    ensures close_counts { CloseCountsIsDetermined }
    ensures accepted { AcceptedIsDetermined }
    ensures number { NumberIsDetermined }
    ensures file_name { FileNameIsDetermined }
{}

/// Each picture that is awaited and arrives is delivered, after every history.
pub fn delivery()
    ensures sent { SentDelivery }
    ensures cut { CutDelivery }
    ensures any_step { StepsDeliver }
    ensures cut_packets { CutPackets }
    ensures packets_sent { PacketsSent }
{}

/// A whole picture has no gap, and each byte is what a packet accepted for it brought for that place.
pub fn provenance()
    ensures after_history { HistoriesAsBrought }
    ensures any_step { StepsAsBrought }
    ensures told { ToldAsBrought }
    ensures shown { ShownAsBrought }
{}

/// The numbers of both sides of each line, of a file's length and of a transcript, computed.
pub fn cases()
    ensures both_sides { BothSides }
    ensures file_cases { FileCases }
    ensures transcript { Transcript }
{}

/// Arrivals can meet what delivery asks.
pub fn two_packets()
    ensures delivered { TranscriptDelivered }
    ensures sent { SentDelivered }
    ensures as_brought { TranscriptAsBrought }
    ensures another { AnotherStartedLater }
    ensures computed { Computed }
{}

/// Useless builds are shut out.
pub fn shut_out()
    ensures refuses_all { RefusingIsOut }
    ensures says_held { SayingHeldIsOut }
    ensures never_writes { NeverWritingIsOut }
    ensures only_claims { ClaimingIsOut }
    ensures only_claims_file { ClaimedFilesAreOut }
    ensures constant_sender { ConstantIsOut }
    ensures invented_count { InventedIsOut }
    ensures count_by_packet { CountByPacketIsOut }
    ensures counts_held { StepsCountHeld }
    ensures cuts_as_said { SenderCutsAsSaid }
{}

/// When a call gives a picture up; each reply has its place among the counts.
pub fn given_up()
    ensures for_another { (r : Receiver) (area p : List ℕ)
        → GivenUpForAnother r area p }
    ensures by_another { (r : Receiver) (area p : List ℕ)
        → AnotherGivesUp r area p }
    ensures has_place { (r : Receiver) (area p : List ℕ)
        → RepliesHavePlaces r area p }
{}

/// Each picture that was begun is whole or given up.
pub fn begun_pictures()
    ensures begins { (r : Receiver) (area p : List ℕ)
        → BeginningsStart r area p }
    ensures starts { (r : Receiver) (area p : List ℕ)
        → StartsBegin r area p }
    ensures balance { (source room : ℕ) (area : List ℕ) (packets : List (List ℕ))
        → BegunWholeOrGivenUp source room area packets }
    ensures tally { (source room : ℕ) (area : List ℕ) (packets : List (List ℕ))
        → TallyOfAllBegun source room area packets }
{}
