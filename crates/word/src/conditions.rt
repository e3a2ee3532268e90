// The conditions of Bcc and Scc.
#![tactic(auto, unfolding(manual::specs::Conditions::condition))]

ghost use Rattle.std.specs.Prelude.{◌≡◌, ◌%◌};
ghost use Rattle.manual.specs.Conditions.{condition as condition_of};

// Whether condition n of Bcc and Scc holds in a status register.
pub fn condition(number: u32, sr: u16) -> bool
    ensures { result ≡ condition_of (number % 16) sr }
{
    let n = sr / 8 % 2 == 1;
    let z = sr / 4 % 2 == 1;
    let v = sr / 2 % 2 == 1;
    let c = sr % 2 == 1;
    match number % 16 {
        0 => true,
        1 => false,
        2 => !c & !z,
        3 => c | z,
        4 => !c,
        5 => c,
        6 => !z,
        7 => z,
        8 => !v,
        9 => v,
        10 => !n,
        11 => n,
        12 => n == v,
        13 => n != v,
        14 => !z & (n == v),
        _ => z | (n != v),
    }
}
