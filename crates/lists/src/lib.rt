// Words selected, or-ed, copied and set to zero.
#![tactic(auto)]

ghost use Rattle.std.specs.Prelude.{◌≡◌, ◌≤◌, length, get_or};
ghost use Rattle.lists.specs.Tab.{kept, any_of, zeros, splice};

// x where `yes` holds, else 0: a select, so that a loop over it has no branch.
pub fn keep(x: u32, yes: bool) -> u32
    ensures { result ≡ kept yes x }
{
    if yes { x } else { 0 }
}

// The words, or-ed.
#[tactic(auto, unfolding(crate::specs::Tab::any_of))]
pub fn any_of(words: &[u32]) -> u32
    ensures { result ≡ any_of (λ i. get_or words.now i 0) (length words.now) }
{
    let mut any = 0u32;
    for word in words {
        any |= *word;
    }
    any
}

// Sets the words of out to zero. `fill(0)` costs some 13 instructions more a call.
pub fn zero_over(out: &mut [u32])
    ensures { out.new ≡ zeros (length out.old) }
{
    for word in out.iter_mut() {
        *word = 0;
    }
}

// N zeros: a function of its own, so that no proof writes them out.
#[tactic(auto, unfolding(crate::specs::Tab::zeros))]
pub fn zeroed<const N: usize>() -> [u32; N]
    ensures { result ≡ zeros N }
{
    [0; N]
}

// The words of xs by value, and zeros up to 32.
#[tactic(auto, unfolding(crate::specs::Tab::splice))]
pub fn load(xs: &[u32]) -> [u32; 32]
    requires { length xs.now ≤ 32 }
    ensures { result ≡ splice 0 (length xs.now) xs.now (zeros 32) }
{
    let mut out = zeroed();
    out[..xs.len()].copy_from_slice(xs);
    out
}
