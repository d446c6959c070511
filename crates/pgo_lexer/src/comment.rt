// Comments that nest.
ghost use Rattle.std.specs.Prelude.{◌≡◌, option_map};
ghost use Rattle.pgo_lexer.specs.Pieces as spec;

use crate::bytes::{closes, opens, skip};

/// What stands behind the end of a comment, whose text starts here, or none where it doesn't end.
#[tactic(auto, using(crate::proofs::Comments::comments))]
pub fn behind_comment(bytes: &[u8]) -> Option<&[u8]>
    ensures { option_map (λ r. r.now) result ≡ spec.behind_comment 1 bytes.now }
{
    let mut rest = bytes;
    let mut depth: usize = 1;
    while depth > 0 {
        if rest.len() == 0 {
            return None;
        }
        if opens(rest) {
            depth += 1;
            rest = skip(rest, 2);
        } else if closes(rest) {
            depth -= 1;
            rest = skip(rest, 2);
        } else {
            rest = skip(rest, 1);
        }
    }
    Some(rest)
}
