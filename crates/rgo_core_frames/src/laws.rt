//! What follows from the record of a goroutine for the region machine, and that records represent its goroutines after each step. The
//! laws are about one state, and other goroutines may be anywhere: a record is about its own goroutine alone, so their steps leave it.

ghost use Rattle.rgo_core_frames.specs.steps.Actions.{ActionLaw, FrameLoadLaw};
ghost use Rattle.rgo_core_frames.specs.steps.BeforeLaws.{BeforeLaw};
ghost use Rattle.rgo_core_frames.specs.goroutines.Children.{GoLaw};
ghost use Rattle.rgo_core_frames.specs.regions.Creations.{CreateLaw};
ghost use Rattle.rgo_core_frames.specs.steps.Ends.{FinishLaw, TrapLaw};
ghost use Rattle.rgo_core_frames.specs.Examples.{FrameExamples};
ghost use Rattle.rgo_core_frames.specs.shown.Ints.{IntsStay};
ghost use Rattle.rgo_core_frames.specs.steps.LocalLaws.{LocalLaw, StakesStay};
ghost use Rattle.rgo_core_frames.specs.steps.Makes.{MakingLaw, RegionLaw};
ghost use Rattle.rgo_core_frames.specs.goroutines.Meetings.{FrameAcknowledgeLaw, FrameMeetLaw, FrameOfferLaw, SentLaw};
ghost use Rattle.rgo_core_frames.specs.shown.NameTables.{TableLaws};
ghost use Rattle.rgo_core_frames.specs.goroutines.Opening.{FrameOpeningLaw};
ghost use Rattle.rgo_core_frames.specs.shown.Operands.{IntLaw, PointerLaw};
ghost use Rattle.rgo_core_frames.specs.regions.Pages.{PageLaw};
ghost use Rattle.rgo_core_frames.specs.steps.Prints.{PrintLaw};
ghost use Rattle.rgo_core_frames.specs.steps.Quiet.{QuietLaw};
ghost use Rattle.rgo_core_frames.specs.regions.Reserved.{ReservedLaw};
ghost use Rattle.rgo_core_frames.specs.shown.Stacks.{StackLaws};
ghost use Rattle.rgo_core_frames.specs.regions.Stakes.{StakeEndLaw, ShareLaw};
ghost use Rattle.rgo_core_frames.specs.States.{SoundStays};

/// A state of a run of checked code is sound: the first one is, and each step keeps it. The laws below take it as a premise.
pub fn sound_stays()
    ensures { SoundStays }
{}

/// Ints of a run fit in words if the constants of the code do: at the start, and after each step. All operators compute modulo 2^64.
pub fn ints_stay()
    ensures { IntsStay }
{}

/// The record of `main` represents it as a run begins.
pub fn opening_law()
    ensures { FrameOpeningLaw }
{}

/// What follows from a record before an instruction. This holds as long as the goroutine makes no access of its own.
pub fn before_law()
    ensures { BeforeLaw }
{}

/// Which int a word is.
pub fn int_law()
    ensures { IntLaw }
{}

/// Which object a word points to. There is one, since the goroutine has a stake in its region, so the region is live.
pub fn pointer_law()
    ensures { PointerLaw }
{}

/// In which region the next instruction makes an object.
pub fn region_law()
    ensures { RegionLaw }
{}

/// An instruction that makes an object is not a local step: it needs accesses to the words of the object.
pub fn making_law()
    ensures { MakingLaw }
{}

/// A local step of a record is a step of the region machine. It reads and writes nothing that others see, so it may be put into the
/// run at any moment before the goroutine's next access.
pub fn local_law()
    ensures { LocalLaw }
{}

/// A local step keeps stakes and the offer: these two are what others depend on.
pub fn stakes_stay()
    ensures { StakesStay }
{}

/// Local steps in a row are as many steps of the region machine. The code only counts them, and hands the number to its next access.
pub fn quiet_law()
    ensures { QuietLaw }
{}

/// An action that touches words of the table, given what the image of memory shows of them.
pub fn action_law()
    ensures { ActionLaw }
{}

/// A load, given what the image of memory shows of the word that was found.
pub fn load_law()
    ensures { FrameLoadLaw }
{}

/// A print writes the bytes of its words. The types of its operands are static, so the words are enough.
pub fn print_law()
    ensures { PrintLaw }
{}

/// A goroutine starts, and its record represents it. Both records change in the same step, with one access.
pub fn go_law()
    ensures { GoLaw }
{}

/// A stake ends. Whether it was the last one, the count of the region decides, not the record.
pub fn end_law()
    ensures { StakeEndLaw }
{}

/// A stake is taken for a goroutine that is about to start. One for each region is enough, however many names it passes.
pub fn share_law()
    ensures { ShareLaw }
{}

/// A region is created at a free slot. No live region has this slot, so the names of others stay right.
pub fn create_law()
    ensures { CreateLaw }
{}

/// A page is taken. Records have no pages here, so they stay as they are.
pub fn page_law()
    ensures { PageLaw }
{}

/// Pages are reserved only before an instruction that makes a spread object, and no more than it needs. So a goroutine that does
/// anything else has none to return.
pub fn reserved_law()
    ensures { ReservedLaw }
{}

/// An offer is made.
pub fn offer_law()
    ensures { FrameOfferLaw }
{}

/// Which word a sender sends: it has stored it in the cell before it offers.
pub fn sent_law()
    ensures { SentLaw }
{}

/// A receiver takes an offer. The sender continues in the state, and its record stays, since only the sender's own accesses change it.
pub fn meet_law()
    ensures { FrameMeetLaw }
{}

/// A sender whose offer was taken continues. Its record makes up for the send that the state has made already.
pub fn acknowledge_law()
    ensures { FrameAcknowledgeLaw }
{}

/// An action traps.
pub fn trap_law()
    ensures { TrapLaw }
{}

/// A run ends by no instruction: at a limit, or for lack of room.
pub fn finish_law()
    ensures { FinishLaw }
{}

/// All frames of a goroutine in one stack of words, as the code has them: a call appends words, a return cuts them off.
pub fn stack_laws()
    ensures { StackLaws }
{}

/// The names of a frame in a table, with an entry for each name of the function, so that one load finds a name.
pub fn table_laws()
    ensures { TableLaws }
{}

/// Where each definition holds and where it does not, and the local steps of a small code.
pub fn examples()
    ensures { FrameExamples }
{}
