// An image's words in the first places of a lent memory; the rest keep their contents.
ghost use Rattle.std.specs.Prelude.{◌≡◌, ◌-◌, ◌*◌, ◌≤◌, length};
ghost use Rattle.rules.specs.Images.{fields, over};

use reader::number;

// An image's words.
pub(crate) fn fill_words(words: &mut [u32], bytes: &[u8], n: usize)
    requires { (n ≤ length words.old) × (4 * n ≤ length bytes.now - 4) }
    ensures { words.new ≡ over (fields bytes.now 4 n) words.old }
{
    for (i, word) in words[..n].iter_mut().enumerate() {
        let at = 4 + 4 * i;
        *word = number(bytes[at], bytes[at + 1], bytes[at + 2], bytes[at + 3]);
    }
}
