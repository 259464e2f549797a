//! Laws of the definitions, as contracts.

ghost use Rattle.driver_sockets.specs.Laws.{QuestionsAreMessages};

/// What the server is asked comes as one whole message.
pub fn questions_are_messages()
    ensures { QuestionsAreMessages }
{}
