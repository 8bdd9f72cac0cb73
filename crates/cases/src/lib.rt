// Worked cases: examples whose outcome anyone can check by hand, computed by the definitions that the contracts cite.
#![tactic(auto)]

ghost use Rattle.cases.specs.Table.{CasesHold};

// No row of the table fails.
pub fn cases_hold()
    ensures { CasesHold }
{}
