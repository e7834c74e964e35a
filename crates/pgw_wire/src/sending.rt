ghost use Rattle.std.specs.Prelude.{◌<◌, ◌≤◌, length, take};
ghost use Rattle.pgw_wire.specs.Outside.{HasFailed, Wrote};

use crate::Sink;

/// Writes the piece, by as many writes as the sink wants, and answers how many bytes of it were written: all of them, or
/// fewer where the sink failed behind these.
pub fn send<K: Sink>(sink: &mut K, piece: &[u8]) -> usize
    ensures within { result ≤ length piece.now }
    ensures wrote { Wrote (K.state sink.old) (K.state sink.new) (take result piece.now) }
    ensures failed { result < length piece.now → HasFailed (K.state sink.old) (K.state sink.new) }
{
    let mut sent = 0;
    while sent < piece.len() {
        match sink.write(&piece[sent..]) {
            Ok(n) => sent += n,
            Err(_) => return sent,
        }
    }
    sent
}
