// A connection's two streams of bytes, which are never waited for.
ghost use Rattle.std.specs.Prelude.{◌≡◌, ◌≤◌, length};
ghost use Rattle.std.specs.Option.{option_map};
ghost use Rattle.nr_service.specs.Streams.{course_received, course_sent, received_count, sent_count, IsSomeReceived, IsSomeSent, GrowsBy};

/// What came of a try to read.
#[derive(Clone, Copy, Debug, PartialEq, Eq)]
pub enum Received {
    /// So many bytes, at least one, stand in front of the buffer.
    Bytes(usize),
    /// None are there now, or the call was interrupted.
    Nothing,
    /// No more will come.
    End,
    /// The stream failed.
    Failed,
}

/// What came of a try to write.
#[derive(Clone, Copy, Debug, PartialEq, Eq)]
pub enum Sent {
    /// So many of the first bytes were taken, at least one.
    Bytes(usize),
    /// None can be taken now, or the call was interrupted.
    Nothing,
    /// The stream failed.
    Failed,
}

/// A connection's two streams of bytes. No call waits.
pub trait Stream {
    ghost use Rattle.std.specs.Prelude.{Option, None};
    ghost use Rattle.nr_model.specs.Bytes.{Bytes};
    ghost use Rattle.nr_service.specs.Streams.{Course};

    // All bytes that it has received, where they are known.
    ghost received: { Self → Option Bytes };

    // All bytes that it has sent, where they are known.
    ghost sent: { Self → Option Bytes };

    // Whether its end was read, and whether it failed, where that is known.
    ghost course: { Self → Option Course } = { λ _. None };

    /// Where it stands in the list by which its device tells of it. A hint.
    fn place(&self) -> usize {
        0
    }

    /// Reads what is there, at most as much as the buffer takes.
    fn receive(&mut self, buffer: &mut [u8]) -> Received
        ensures some { IsSomeReceived result }
        ensures bound { received_count result ≤ length buffer.new }
        ensures received { GrowsBy (received_count result) buffer.new (received self.old) (received self.new) }
        ensures sent { sent self.new ≡ sent self.old }
        ensures course { course self.new ≡ option_map (course_received result) (course self.old) };

    /// Writes a beginning of the bytes.
    fn send(&mut self, bytes: &[u8]) -> Sent
        ensures some { IsSomeSent result }
        ensures bound { sent_count result ≤ length bytes.now }
        ensures sent { GrowsBy (sent_count result) bytes.now (sent self.old) (sent self.new) }
        ensures received { received self.new ≡ received self.old }
        ensures course { course self.new ≡ option_map (course_sent result) (course self.old) };
}
