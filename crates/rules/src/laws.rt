// What follows from the rules. Each function here stands for something that is true of them: its promise says what.
ghost use Rattle.rules.specs.Cases.{WorkedCasesHold};
ghost use Rattle.rules.specs.Characterised.{CollectedAreTheActive, FloorIsLeast, BoundIsLeast, NoLevelHasTheClock, WaitedForIsEarliest, ChoiceHasLargestNumber, NoChoiceWhereNonePasses};
ghost use Rattle.rules.specs.Examples.{HiddenCallsAreCompared, CommittedReaderAbove};
ghost use Rattle.rules.specs.Isolation.{HiddenCallsChangeNoVisibleAnswer};
ghost use Rattle.rules.specs.Reached.{QuestionHasRoom, StampsNeverFall, StampsWithinClock, NumbersRise, FloorNeverFalls, RowsKeepRule, WrittenVersionStands, PendingHasOwner, ActiveWriteStands, NewestNeverLost, WaitNamesTheEarliest};
ghost use Rattle.rules.specs.Runs.{RefusedCallLeavesState};
ghost use Rattle.rules.specs.Serial.{SerialRunGivesAnsweredValues, RunningOrderExists};

// What a level is answered does not depend on levels that it does not dominate.
pub fn hidden_calls_change_no_visible_answer()
    ensures law { HiddenCallsChangeNoVisibleAnswer }
    ensures example { HiddenCallsAreCompared }
{}

// The committed transactions behave as if they had run one by one, in every running order, and there is one.
pub fn committed_transactions_are_serial()
    ensures law { SerialRunGivesAnsweredValues }
    ensures exists { RunningOrderExists }
    ensures example { CommittedReaderAbove }
{}

pub fn refused_call_leaves_state()
    ensures { RefusedCallLeavesState }
{}

// Of stamps and numbers, in every state that a run reaches.
pub fn reached_stamps()
    ensures room { QuestionHasRoom }
    ensures rising { StampsNeverFall }
    ensures within { StampsWithinClock }
    ensures numbers { NumbersRise }
    ensures floor { FloorNeverFalls }
    ensures wait { WaitNamesTheEarliest }
{}

// Of rows, in every state that a run reaches.
pub fn reached_rows()
    ensures rule { RowsKeepRule }
    ensures written { WrittenVersionStands }
    ensures owner { PendingHasOwner }
    ensures active { ActiveWriteStands }
    ensures newest { NewestNeverLost }
{}

// The definitions of floor, bound and the one waited for, by what they are the least or the earliest of.
pub fn watermarks_are_least()
    ensures collected { CollectedAreTheActive }
    ensures floor { FloorIsLeast }
    ensures bound { BoundIsLeast }
    ensures clock { NoLevelHasTheClock }
    ensures earliest { WaitedForIsEarliest }
{}

// The choices of a version and of a predecessor, by the test that they pass.
pub fn choices_have_largest_number()
    ensures chosen { ChoiceHasLargestNumber }
    ensures none { NoChoiceWhereNonePasses }
{}

pub fn worked_cases_hold()
    ensures { WorkedCasesHold }
{}
