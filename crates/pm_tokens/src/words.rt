//! Tables of words.

ghost use Rattle.std.specs.Prelude.{◌≡◌, map};
ghost use Rattle.pm_tokens.specs.Words.{lookup};

/// What stands beside a word in a table, where the word stands there first.
#[tactic(auto, unfolding(crate::specs::Words::lookup))]
pub fn lookup<T: Copy>(table: &[(&'static str, T)], word: &[u8]) -> Option<T>
    ensures { result ≡ lookup (map (λ r. (r.0.now, r.1)) table.now) word.now }
{
    match table {
        [] => None,
        [row, rest @ ..] => {
            if word == row.0.as_bytes() {
                Some(row.1)
            } else {
                lookup(rest, word)
            }
        }
    }
}
