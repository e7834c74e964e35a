/// A notification that a server process sent on a channel.
#[derive(Debug, Drop)]
pub struct PgNotification {
    /// The number of the server process that sent it.
    pub process_id: i32,
    /// The name of the channel.
    pub channel: String,
    /// What was sent with it. Where nothing was, the text is empty.
    pub payload: String,
}
