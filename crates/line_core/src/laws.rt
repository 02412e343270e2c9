//! Laws of the definitions, each carried by a function that does nothing.
ghost use Rattle.book_model.specs.declared.request.Request.{Request};
ghost use Rattle.book_model.specs.declared.version.Version.{Version};
ghost use Rattle.line_core.specs.Laws.{IsReadAgain};

/// The line of a request is read as the request, or breaks the rule that the request breaks, by each version: of every word
/// and every date that is as many numbers as its calendar has fields, each of at most seven digits, also one out of range. So
/// a request that comes from no line may be taken in place of its line.
#[tactic(auto, using(crate::proofs::TextRead::text_is_read))]
pub fn text_is_read()
    ensures read { (version : Version) (r : Request) → IsReadAgain version r }
{}
