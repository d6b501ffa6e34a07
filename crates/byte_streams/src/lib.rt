//! Streams of bytes, as definitions that the theory and the tool share: beginnings of lists, messages that their own bytes decide, and
//! what two sides come to say to each other.
#![tactic(auto)]

ghost use Rattle.std.specs.Prelude.{◌≡◌, ◌↔◌, ℕ, List, length, take};
ghost use Rattle.byte_streams.specs.Prefixes.{IsPrefix};
ghost use Rattle.byte_streams.specs.Talks.{IsTalk};

/// A list is a beginning of another exactly where it is what stands in that one's first places.
pub fn prefix_is_front()
    ensures { (xs ys : List ℕ) → IsPrefix xs ys ↔ (take (length xs) ys ≡ xs) }
{}

/// Talk ends in one list.
pub fn one_talk()
    ensures { (said out : List ℕ → List ℕ) (x y : List ℕ) → IsTalk said out x → IsTalk said out y → x ≡ y }
{}
