ghost use Rattle.audit_input.specs.Texts.{WhatIsTakenKeepsTheRules, WhatKeepsTheRulesIsTaken};

/// Bytes of which no line is refused are the texts of items that keep the rules; and of such texts a line is refused only where one
/// passes a limit.
pub fn audits_are_exact()
    ensures only { WhatIsTakenKeepsTheRules }
    ensures all { WhatKeepsTheRulesIsTaken }
{}
