//! What texts are put into, piece by piece.

ghost use Rattle.std.specs.Prelude.{◌≡◌, ℕ, ◌++◌, List, [], refl};

/// What takes pieces of a text one after another. No piece is refused: what can fail keeps that it
/// failed, as a [`Latch`](crate::Latch) does, and is asked once at the end.
///
/// `emits` says of a text and two states that just this text was put between them. Its laws join
/// the pieces of a straight line of calls to one text, up to eight.
pub trait Out {
    ghost emits: { List ℕ → Self → Self → Type 0 };

    /// Puts a piece behind those before it.
    fn put(&mut self, piece: &[u8])
        ensures { emits piece.now self.old self.new };

    ghost emits_nothing: { (text : List ℕ) (a : Self) → [] ≡ text → emits text a a };

    ghost emits_two: { (text p q : List ℕ) (a b c : Self) → emits p a b → emits q b c → p ++ q ≡ text → emits text a c };

    ghost emits_three: { (text p q r : List ℕ) (a b c d : Self) → emits p a b → emits q b c → emits r c d → p ++ (q ++ r) ≡ text → emits text a d } = { λ text p q r a b c d x0 x1 x2 is. emits_two text p (q ++ r) a b d x0 (emits_two (q ++ r) q r b c d x1 x2 refl) is };

    ghost emits_four: { (text p q r s : List ℕ) (a b c d e : Self) → emits p a b → emits q b c → emits r c d → emits s d e → p ++ (q ++ (r ++ s)) ≡ text → emits text a e } = { λ text p q r s a b c d e x0 x1 x2 x3 is. emits_two text p (q ++ (r ++ s)) a b e x0 (emits_three (q ++ (r ++ s)) q r s b c d e x1 x2 x3 refl) is };

    ghost emits_five: { (text p q r s t : List ℕ) (a b c d e f : Self) → emits p a b → emits q b c → emits r c d → emits s d e → emits t e f → p ++ (q ++ (r ++ (s ++ t))) ≡ text → emits text a f } = { λ text p q r s t a b c d e f x0 x1 x2 x3 x4 is. emits_two text p (q ++ (r ++ (s ++ t))) a b f x0 (emits_four (q ++ (r ++ (s ++ t))) q r s t b c d e f x1 x2 x3 x4 refl) is };

    ghost emits_six: { (text p q r s t u : List ℕ) (a b c d e f g : Self) → emits p a b → emits q b c → emits r c d → emits s d e → emits t e f → emits u f g → p ++ (q ++ (r ++ (s ++ (t ++ u)))) ≡ text → emits text a g } = { λ text p q r s t u a b c d e f g x0 x1 x2 x3 x4 x5 is. emits_two text p (q ++ (r ++ (s ++ (t ++ u)))) a b g x0 (emits_five (q ++ (r ++ (s ++ (t ++ u)))) q r s t u b c d e f g x1 x2 x3 x4 x5 refl) is };

    ghost emits_seven: { (text p q r s t u v : List ℕ) (a b c d e f g h : Self) → emits p a b → emits q b c → emits r c d → emits s d e → emits t e f → emits u f g → emits v g h → p ++ (q ++ (r ++ (s ++ (t ++ (u ++ v))))) ≡ text → emits text a h } = { λ text p q r s t u v a b c d e f g h x0 x1 x2 x3 x4 x5 x6 is. emits_two text p (q ++ (r ++ (s ++ (t ++ (u ++ v))))) a b h x0 (emits_six (q ++ (r ++ (s ++ (t ++ (u ++ v))))) q r s t u v b c d e f g h x1 x2 x3 x4 x5 x6 refl) is };

    ghost emits_eight: { (text p q r s t u v w : List ℕ) (a b c d e f g h i : Self) → emits p a b → emits q b c → emits r c d → emits s d e → emits t e f → emits u f g → emits v g h → emits w h i → p ++ (q ++ (r ++ (s ++ (t ++ (u ++ (v ++ w)))))) ≡ text → emits text a i } = { λ text p q r s t u v w a b c d e f g h i x0 x1 x2 x3 x4 x5 x6 x7 is. emits_two text p (q ++ (r ++ (s ++ (t ++ (u ++ (v ++ w)))))) a b i x0 (emits_seven (q ++ (r ++ (s ++ (t ++ (u ++ (v ++ w)))))) q r s t u v w b c d e f g h i x1 x2 x3 x4 x5 x6 x7 refl) is };
}
