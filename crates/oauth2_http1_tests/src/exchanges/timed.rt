//! Tests of a connection whose only failure is a timeout, and of the client's error then.

use crate::exchanges::checks::{GET_BYTES, assert_text_at, text_of};
use crate::exchanges::wire::Wire;
use crate::support::{GET, request_of};
use oauth2_http1::{Http1Client, Over, Receive, Transmit};
use oauth2_wire::SyncHttpClient;
use std::io::{self, ErrorKind, Read, Write};
use std::process::Abort;

/// A connection whose every failure is a timeout.
#[derive(Drop)]
struct Timed<S> {
    stream: S,
}

impl<S: Read> Receive for Timed<S> {
    ghost use Rattle.std.specs.Prelude.{◌≡◌, IfErr};
    ghost use Rattle.std.specs.declared.io.ErrorKind.TheVariants.{TimedOut};
    ghost use Rattle.std.specs.IoError.{error_kind};

    ghost reads = { λ _ r _. IfErr r (λ e. error_kind e ≡ TimedOut) };

    fn receive(&mut self, chunk: &mut [u8]) -> io::Result<usize> {
        match self.stream.read(chunk) {
            Ok(n) => Ok(n),
            Err(_) => Err(io::Error::from(ErrorKind::TimedOut)),
        }
    }
}

impl<S: Write> Transmit for Timed<S> {
    ghost use Rattle.std.specs.Prelude.{◌≡◌, IfErr};
    ghost use Rattle.std.specs.declared.io.ErrorKind.TheVariants.{TimedOut};
    ghost use Rattle.std.specs.IoError.{error_kind};

    ghost writes = { λ _ r _. IfErr r (λ e. error_kind e ≡ TimedOut) };

    ghost flushes = { λ _ r _. IfErr r (λ e. error_kind e ≡ TimedOut) };

    fn transmit(&mut self, bytes: &[u8]) -> io::Result<usize> {
        match self.stream.write(bytes) {
            Ok(n) => Ok(n),
            Err(_) => Err(io::Error::from(ErrorKind::TimedOut)),
        }
    }

    fn finish(&mut self) -> io::Result<()> {
        match self.stream.flush() {
            Ok(()) => Ok(()),
            Err(_) => Err(io::Error::from(ErrorKind::TimedOut)),
        }
    }
}

// Which call of the connection fails, and the client's error. The first call writes the request,
// the second flushes, and the third reads.
const FAILURES: &[(usize, &str)] = &[
    (1, "Write(Kind(TimedOut))"),
    (2, "Write(Kind(TimedOut))"),
    (3, "Reply(Read(Kind(TimedOut)))"),
];

fn text_after(rt: &(impl Abort + AllocGlobal), fails_at: usize) -> String {
    let mut wire = Wire::new(b"", GET_BYTES.as_bytes());
    wire.fails_at = fails_at;
    let stream = Timed { stream: &mut wire };
    let mut http_client = Http1Client::new(rt.alloc(), Over::new(stream));
    let request = request_of(rt.alloc(), GET).expect(rt, "a request");
    text_of(rt, &http_client.call(request))
}

#[test]
fn calls_out_of_time(rt: HostRuntime) {
    for (fails_at, wanted) in FAILURES {
        let text = text_after(&rt, *fails_at);
        assert_text_at(&rt, text.as_str(), wanted, wanted);
    }
}
