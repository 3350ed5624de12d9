//! What follows from `Server::take`. Nothing here runs: a function names a law by a call, and its proof may use the clause from then on.

ghost use Rattle.std.specs.Prelude.{◌≡◌, List, Option};
ghost use Rattle.language_server.specs.Sessions.{AreAnswered, answered, asked};
ghost use Rattle.language_server.specs.declared.answers.Response.{Response};
ghost use Rattle.language_server.specs.declared.messages.Message.{Message};
ghost use Rattle.language_server.specs.declared.server.Phase.{Phase};

/// Proves that of messages one after another each request is answered once, with its id, in their order; that what is no message is
/// answered once too, and ends nothing; and that nothing else is answered.
pub fn requests_are_answered_once()
    ensures { (phase : Phase) (messages : List Message) (answers : List (Option Response)) → AreAnswered phase messages answers → answered answers ≡ asked messages }
{}
