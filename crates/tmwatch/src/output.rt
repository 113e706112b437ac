use tmw_streams::{IoFault, Sink};

/// A sink that remembers whether a write failed: from a status of 4 alone nobody could tell a failed write from another fault.
#[derive(Drop)]
pub struct Output<K> {
    sink: K,
    failed: bool,
}

impl<K: Sink> Output<K> {
    /// Returns an output to this sink, without a failed write so far.
    pub fn new(sink: K) -> Output<K> {
        Output {
            sink,
            failed: false,
        }
    }

    /// Tells whether a write has failed.
    pub fn has_failed(&self) -> bool {
        self.failed
    }
}

impl<K: Sink> Sink for Output<K> {
    ghost to = { record {
      took = λ output bytes. K.to.took output.sink bytes;
      holds = λ output. K.to.holds output.sink;
      failures = λ output. K.to.failures output.sink;
    } };

    fn put(&mut self, bytes: &[u8]) -> Result<usize, IoFault> {
        let taken = self.sink.put(bytes);
        if taken.is_err() {
            self.failed = true;
        }
        taken
    }

    ghost took_some = { λ output. K.took_some output.sink };
}
