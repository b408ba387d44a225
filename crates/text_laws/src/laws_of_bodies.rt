//! The bodies of HTTP responses have texts: JSON texts are bytes, and statuses are numbers.
ghost use Rattle.text_laws.specs.Bodies.Laws.{AnswersAreBytes, MessagesAreBytes, StatusesAreNumbers};

/// The JSON text of an answer, and of a message of a watch, is bytes, where its parts fit; and each status is a number of a text.
pub fn bodies_have_texts()
    ensures answers { AnswersAreBytes }
    ensures messages { MessagesAreBytes }
    ensures statuses { StatusesAreNumbers }
{}
