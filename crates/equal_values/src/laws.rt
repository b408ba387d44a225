ghost use Rattle.equal_values.specs.Laws.{SameIsOne, EachIsTheSame};

/// Answers, messages, events and bodies that compare as the same are one.
pub fn what_compares_is_one()
    ensures { SameIsOne }
{}

/// An answer, a message, an event and a body compares as the same with itself.
pub fn each_compares_with_itself()
    ensures { EachIsTheSame }
{}
