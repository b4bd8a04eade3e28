ghost use Rattle.std.specs.Prelude.{◌≡◌, ◌<◌, OnOk, IfErr};
ghost use Rattle.lane_types.specs.declared.call.Call.{Call};
ghost use Rattle.lane_types.specs.Faces.{WholeFace};
ghost use Rattle.lane_types.specs.Seen.{Seen, IsAccepted, IsRefused, IsStepped, AreInAgreement};

use crate::call::{Call, Refusal, Stepped};
use crate::deed::Deed;
use crate::face::Face;

/// A value that several lanes use. Each makes one call at a time, in steps.
pub trait Laned {
    /// What a commit means.
    type Deed: Deed;

    /// How many lanes and words it has, the words, the word that the last step changed, and the whole face of each lane.
    ghost seen: { Self → Seen Self.Deed };

    /// The condition of an ask, over the lane's face and the call.
    ghost may: { WholeFace Self.Deed → Call Self.Deed → Type 0 };

    fn lanes(&self) -> u32
        ensures { result ≡ (seen self.now).lanes };

    /// Makes this the lane's call in progress, or gives it back. No step is made.
    fn ask(&mut self, lane: u32, call: Call<Self::Deed>) -> Result<(), (Refusal, Call<Self::Deed>)>
        requires lane { lane < (seen self.old).lanes }
        requires may { may ((seen self.old).faces lane) call }
        ensures ok { OnOk result (IsAccepted lane call (seen self.old) (seen self.new)) }
        ensures err { IfErr result (λ err. IsRefused lane call err.0 (seen self.old) (seen self.new)) }
        ensures returned { IfErr result (λ err. err.1 ≡ call) };

    /// Goes on with the lane's call, by one event at most.
    fn step(&mut self, lane: u32) -> Stepped
        requires { lane < (seen self.old).lanes }
        ensures { IsStepped Self.Deed.meaning lane result (seen self.old) (seen self.new) };

    fn face(&self, lane: u32) -> Face
        requires { lane < (seen self.now).lanes }
        ensures { result ≡ ((seen self.now).faces lane).face };

    /// How many words it has.
    fn span(&self) -> u32
        ensures { result ≡ (seen self.now).span };

    fn word(&self, a: u32) -> u64
        requires { a < (seen self.now).span }
        ensures { result ≡ (seen self.now).word a };

    /// The data word of the heap that the last step changed.
    fn touched(&self) -> Option<u32>
        ensures { result ≡ (seen self.now).touched };

    /// The faces show the words, and what they hold is apart.
    ghost agrees: { (value : Self) → AreInAgreement (seen value) };
}
