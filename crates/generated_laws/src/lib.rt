//! A theorem over generated scripts, on a public function with an empty body, by the definitions that the program's clauses cite.
#![tactic(auto)]

ghost use Rattle.generated_laws.specs.Laws.{NoGeneratedLineIsRefused};

/// For every number up to 20,000, no line of its script is refused: along the script's making, the world that the lines before it left
/// takes each line that is to be added. So nothing of a generated script is left out.
pub fn no_generated_line_is_refused()
    ensures { NoGeneratedLineIsRefused }
{}
