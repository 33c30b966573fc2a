ghost use Rattle.std.specs.Prelude.{◌≡◌, nat_eq};
ghost use Rattle.std.specs.List.{starts_with};

pub fn begins_with(word: &str, front: &str) -> bool
    ensures { result ≡ starts_with nat_eq word.now front.now }
{
    word.starts_with(front)
}
