//! Kinds of facts, places and sites that a version has, read by their names.
ghost use Rattle.std.specs.Prelude.{◌≡◌};
ghost use Rattle.book_model.specs.lines.Lines.{words_of};
ghost use Rattle.cert_parser.specs.Gives.{Gives};
ghost use Rattle.cert_parser.specs.Grammar as spec;

use crate::words::word_at;
use book_model::{Kind, Place, Site, Version};

/// A kind that the version has, and what follows it.
#[tactic(auto, unfolding(crate::specs::Grammar::kind_at))]
pub(crate) fn kind_at(version: Version, line: &[u8]) -> Option<(Kind, &[u8])>
    ensures { Gives (λ p. (p.0, words_of p.1.now)) result
        (spec.kind_at version (words_of line.now)) }
{
    let (word, rest) = word_at(line)?;
    let kind = Kind::named_in(version, word)?;
    Some((kind, rest))
}

/// A place that the version has, and what follows it.
#[tactic(auto, unfolding(crate::specs::Grammar::place_at))]
pub(crate) fn place_at(version: Version, line: &[u8]) -> Option<(Place, &[u8])>
    ensures { Gives (λ p. (p.0, words_of p.1.now)) result
        (spec.place_at version (words_of line.now)) }
{
    let (word, rest) = word_at(line)?;
    let place = Place::named_in(version, word)?;
    Some((place, rest))
}

/// A site that the version has, and what follows it.
#[tactic(auto, unfolding(crate::specs::Grammar::site_at))]
pub(crate) fn site_at(version: Version, line: &[u8]) -> Option<(Site, &[u8])>
    ensures { Gives (λ p. (p.0, words_of p.1.now)) result
        (spec.site_at version (words_of line.now)) }
{
    let (word, rest) = word_at(line)?;
    let site = Site::named_in(version, word)?;
    Some((site, rest))
}
