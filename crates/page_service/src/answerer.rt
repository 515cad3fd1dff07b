//! What a service of requests and answers has to know.

ghost use Rattle.std.specs.Prelude.{◌≡◌, ℕ, ◌≤◌, List, ◌++◌, length, IfOk, IfSome};
ghost use Rattle.page_service.specs.Protocol.{Protocol, IsProtocol};

use std::alloc::{AllocError, Global};

/// Who knows where a request ends, and what is answered to it.
pub trait Answerer {
    /// An answer. It says which bytes it has, and doesn't hold them.
    type Answer: Copy;

    /// The protocol.
    ghost protocol: { Self → Protocol Self.Answer };

    /// What stands behind an answer's head.
    ghost behind_head: { Self → Self.Answer → List ℕ };

    /// The answer to the request in front of these bytes, at a time in microseconds, and how many of them that request has. None says
    /// that it isn't whole yet.
    fn answer(&self, at: u64, bytes: &[u8]) -> Option<(Self::Answer, usize)>
        ensures is { result ≡ (protocol self.now).answers at bytes.now }
        ensures counted { IfSome result (λ found. found.1 ≤ length bytes.now) };

    /// Whether another request may follow this answer.
    fn keeps(&self, answer: Self::Answer) -> bool
        ensures { result ≡ (protocol self.now).keeps answer };

    /// The bytes that an answer begins with, made anew at each call: a few hundred.
    fn head(&self, alloc: Global, answer: Self::Answer) -> Result<Vec<u8>, AllocError>
        ensures { IfOk result (λ head. head.items ++ behind_head self.now answer ≡ (protocol self.now).text answer) };

    /// All of its other bytes, where they lie.
    fn body(&self, answer: Self::Answer) -> &[u8]
        ensures { result.now ≡ behind_head self.now answer };

    ghost sound: { (s : Self) → IsProtocol (protocol s) };
}
