//! How much of a reply is read.

ghost use Rattle.std.specs.Prelude.{◌≡◌};
ghost use Rattle.oauth2_http1.specs.Bounds.{default_bounds, most_bytes};

use http1::Limits;

/// How much of a reply is read. `Bounds::default()` allows 1 MiB for a body, 1,048,576 reads, and
/// 16 KiB each for a head, for the extensions of all chunks and for the trailers. The bounds also
/// limit all bytes that are read for one reply, with responses of status 1xx and the lines of
/// chunks (`most_bytes`).
#[derive(Clone, Copy, Debug, PartialEq, Eq)]
pub struct Bounds {
    /// The most bytes of a head, of the extensions of all chunks, and of the trailers.
    pub limits: Limits,
    /// The most bytes of a body.
    pub max_body: usize,
    /// How often the reader is called at most. Calls that a signal interrupted do not count.
    pub max_reads: u32,
}

impl Default for Bounds {
    ghost is_default = { λ bounds. bounds ≡ default_bounds };

    fn default() -> Bounds {
        Bounds {
            limits: Limits::default(),
            max_body: 1_048_576,
            max_reads: 1_048_576,
        }
    }
}

impl Bounds {
    /// Sets the most bytes of a head.
    pub fn set_max_head(mut self, bytes: usize) -> Bounds
        ensures { result ≡ record self { limits = record self.limits { max_head_len = bytes } } }
    {
        self.limits.max_head_len = bytes;
        self
    }

    /// Sets the most bytes of extensions, in all chunks of a body together.
    pub fn set_max_extensions(mut self, bytes: usize) -> Bounds
        ensures { result ≡ record self {
          limits = record self.limits { max_extensions_len = bytes };
        } }
    {
        self.limits.max_extensions_len = bytes;
        self
    }

    /// Sets the most bytes of the trailers, with the empty line after them. Below 2, every chunked
    /// body is refused.
    pub fn set_max_trailers(mut self, bytes: usize) -> Bounds
        ensures { result ≡ record self {
          limits = record self.limits { max_trailers_len = bytes };
        } }
    {
        self.limits.max_trailers_len = bytes;
        self
    }

    /// Sets the most bytes of a body.
    pub fn set_max_body(mut self, bytes: usize) -> Bounds
        ensures { result ≡ record self { max_body = bytes } }
    {
        self.max_body = bytes;
        self
    }

    /// The most bytes that are read for one reply: eight times the sum of the bounds on a head, the
    /// extensions, the trailers and the body.
    pub fn most_bytes(&self) -> usize
        ensures { result ≡ most_bytes self.now }
    {
        self.limits
            .max_head_len
            .saturating_add(self.limits.max_extensions_len)
            .saturating_add(self.limits.max_trailers_len)
            .saturating_add(self.max_body)
            .saturating_mul(8)
    }

    /// Sets how often the reader is called at most.
    pub fn set_max_reads(mut self, reads: u32) -> Bounds
        ensures { result ≡ record self { max_reads = reads } }
    {
        self.max_reads = reads;
        self
    }
}
