//! What holds of all answers: each law is a function that does nothing, whose contract is the law.

ghost use Rattle.std.specs.Prelude.{◌≡◌, ◌<◌, ◌≤◌, ◌⊎◌, ◌++◌, ◌∷◌, ◌-◌, ℕ, true, List, length, take, drop, Some};
ghost use Rattle.httparse.specs.Grammar.{RequestHead, ReadsRequest};
ghost use Rattle.http_pages.specs.AnswerText.{answer_text, content};
ghost use Rattle.http_pages.specs.Choosing.{by_lines, nth_page};
ghost use Rattle.http_pages.specs.Grammars.{IsHead, IsNarrow, IsRefusal, SaysAs};
ghost use Rattle.http_pages.specs.Limits.{most_head};
ghost use Rattle.http_pages.specs.Naming.{TellsOfTarget, tells_of_page};
ghost use Rattle.http_pages.specs.Pages.{Page};
ghost use Rattle.http_pages.specs.Reading.{answer_to};
ghost use Rattle.http_pages.specs.declared.answer.Answer.{Answer};
ghost use Rattle.http_pages.specs.declared.answer.Status.TheVariants as status;

/// An answer stands, whatever comes behind its request: so it is the same however its bytes came in pieces. It takes some bytes, and none that
/// haven't come; they alone have the same answer. It has at least 64 bytes itself.
pub fn answers_stand()
    ensures goes_on { (pages : List Page) (at : ℕ) (bytes more : List ℕ) (found : Answer × ℕ) → answer_to pages at bytes ≡ Some found → answer_to pages at (bytes ++ more) ≡ Some found }
    ensures looked_at { (pages : List Page) (at : ℕ) (bytes : List ℕ) → answer_to pages at (take most_head bytes) ≡ answer_to pages at bytes }
    ensures counted { (pages : List Page) (at : ℕ) (bytes : List ℕ) (found : Answer × ℕ) → answer_to pages at bytes ≡ Some found → (1 ≤ found.1) × (found.1 ≤ length bytes) }
    ensures alone { (pages : List Page) (at : ℕ) (bytes : List ℕ) (found : Answer × ℕ) → answer_to pages at bytes ≡ Some found → answer_to pages at (take found.1 bytes) ≡ Some found }
    ensures long { (pages : List Page) (a : Answer) → 64 ≤ length (answer_text pages a) }
{}

/// Behind 200 stands all of its page. Behind 206 stands a part of it, a byte at least, so the place that is told (RFC 9110, 14.4) is one. The page
/// of an answer lies where the target says, and where 404 is answered none lies there.
pub fn pages_are_sent()
    ensures whole { (pages : List Page) (at : ℕ) (bytes : List ℕ) (found : Answer × ℕ) → answer_to pages at bytes ≡ Some found → found.0.status ≡ status.Ok
        → content pages found.0 ≡ (nth_page pages found.0.page).body }
    ensures part { (pages : List Page) (at : ℕ) (bytes : List ℕ) (found : Answer × ℕ) → answer_to pages at bytes ≡ Some found → found.0.status ≡ status.PartialContent
        → (found.0.from < found.0.to) × (found.0.to ≤ length (nth_page pages found.0.page).body) }
    ensures named { (pages : List Page) (at : ℕ) (bytes : List ℕ) (found : Answer × ℕ) → answer_to pages at bytes ≡ Some found
        → tells_of_page found.0.status ≡ true → TellsOfTarget pages (take found.1 (take most_head bytes)) found.0 }
{}

/// The heads of the kit's grammar (RFC 9112, 2 to 5) are those here of HTTP/1.0 and HTTP/1.1 whose target is UTF-8, and they say the same:
/// method, target, version, and the fields' names and values. Other minor versions and targets are taken here beside them. No length is
/// bounded in this: the bound of 8,192 bytes is that of `answer_to`.
pub fn heads_are_the_grammars()
    ensures read { (bytes rest : List ℕ) (h : RequestHead) → ReadsRequest bytes h rest
        → (line : List ℕ) × (fields : List (List ℕ)) × IsHead bytes (length bytes - length rest) line fields × IsNarrow line × SaysAs h line fields }
    ensures accepted { (bytes : List ℕ) (n : ℕ) (line : List ℕ) (fields : List (List ℕ)) → IsHead bytes n line fields → IsNarrow line
        → (h : RequestHead) × ReadsRequest bytes h (drop n bytes) × SaysAs h line fields }
{}

/// A head of at most 8,192 bytes is answered by its lines alone, and takes its own bytes. Each other answer is a refusal (400, 414, 431 or
/// 505), behind which the connection ends.
pub fn heads_are_answered()
    ensures judged { (pages : List Page) (at : ℕ) (bytes : List ℕ) (n : ℕ) (line : List ℕ) (fields : List (List ℕ)) → IsHead bytes n line fields → n ≤ most_head
        → answer_to pages at bytes ≡ Some (by_lines pages at (line ∷ fields), n) }
    ensures others { (pages : List Page) (at : ℕ) (bytes : List ℕ) (found : Answer × ℕ) → answer_to pages at bytes ≡ Some found
        → IsRefusal found.0 ⊎ ((line : List ℕ) × (fields : List (List ℕ)) × IsHead bytes found.1 line fields × (found.0 ≡ by_lines pages at (line ∷ fields))) }
{}
