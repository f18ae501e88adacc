// Laws: the sequential Redis as a server that goes from state to state, and the conversations of connections.

ghost use Rattle.nr_model.specs.Conversations.{ConversationLaw};
ghost use Rattle.nr_model.specs.Servers.{IsRedis};

/// The server that goes from state to state is the sequential Redis, which looks back, along every sequence: what is
/// stored, who is subscribed, which transactions are given up, and all that is emitted. A read leaves it as it is.
fn server_law()
    ensures { IsRedis }
{}

/// Conversations can be cut anywhere, and each request has one deed until one ends the connection; a transaction is
/// open where the requests say so, with what they queued, and is spoiled where one of them spoiled it; and a connection
/// holds what the sequential Redis says that it is subscribed to.
fn conversation_law()
    ensures { ConversationLaw }
{}
