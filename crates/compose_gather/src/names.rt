// The names of inputs and latches, which the words of a text say.
ghost use Rattle.std.specs.Prelude.{◌≡◌, option_copied};
ghost use Rattle.compose_gather.specs.Inner.Names.{NameWords, name_at, name_of};

// The name that the two words at a place say, if there is one. A name does not begin at place 0.
pub fn name_at<'a>(text: &'a [u8], words: &[u64], at: usize) -> Option<&'a [u8]>
    requires { NameWords text.now words.now at }
    ensures { name_of (option_copied result) ≡ name_at text.now words.now at }
{
    let start = words[at] as usize;
    let size = words[at + 1] as usize;
    if start == 0 {
        return None;
    }
    Some(crate::piece(text, start, size))
}
