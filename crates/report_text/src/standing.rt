// The words with which errors are listed.
ghost use Rattle.std.specs.Prelude.{◌≡◌};
ghost use Rattle.report_text.specs.Standing.{word_of};

use tree_excuses::Standing;

/// The word with which an error of this standing is listed: `error` or `normal`. It takes no memory.
pub fn word_of(standing: Standing) -> &'static [u8]
    ensures { result.now ≡ word_of standing }
{
    match standing {
        Standing::Counts => b"error",
        Standing::Normal => b"normal",
    }
}
