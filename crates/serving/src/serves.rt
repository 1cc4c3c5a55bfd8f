// What a board that serves requests has: the plain board, and the board with its journal.
ghost use Rattle.std.specs.Prelude.{◌≡◌, List, ℕ};
ghost use Rattle.words.specs.Bytes.{Bytes};
ghost use Rattle.wire.specs.declared.Answer.{Answer};

use wire::Answer;

pub trait Serves {
    // What a request may suppose of it; what a request leaves of it, and what is answered; and its values.
    ghost Ready: { Self → Type 0 };

    ghost next: { Self → List ℕ → Self };

    ghost reply: { Self → List ℕ → Answer };

    ghost values: { Self → List ℕ };

    // One request: the board is altered where it lies.
    fn step_in(&mut self, request: [u8; 8]) -> Answer
        requires { Ready self.old }
        ensures { (result ≡ reply self.old request) × (self.new ≡ next self.old request) };

    fn values(&self) -> [u32; 64]
        ensures { result ≡ values self.now };

    // A request leaves what the next one may suppose.
    ghost keeps: { (s : Self) (q : List ℕ) → Bytes 8 q → Ready s → Ready (next s q) };
}
