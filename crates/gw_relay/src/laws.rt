//! The law of handing on. The function does nothing; its contract is a law, proved for all fields.

ghost use Rattle.std.specs.Prelude.{◌≡◌, ℕ, List, true};
ghost use Rattle.std.specs.List.{AllByRecursion};
ghost use Rattle.gw_relay.specs.Fields.{Coming, has, AreMutual, IsRun, IsQuiet, IsPath};

/// A delta reaches every gateway to which a way of links leads from the one that made it, once
/// nothing is under way any more: each gateway, when the delta is new to it, sends it on to those
/// only that are not linked with whom it came from.
///
/// The run is the list of how the delta came to whom, the last one first. It comes from a gateway
/// that has it: sent on, or for a digest. In which order links deliver makes no difference. Nothing
/// is said of links that break, of deltas that are refused, and of how long it takes.
pub fn reaches_all()
    ensures reaches { (links : ℕ → List ℕ) (maker : ℕ) (run : List Coming) → AreMutual links
        → IsRun links maker run → IsQuiet links maker run
        → (way : List ℕ) → IsPath links maker way
        → AllByRecursion (λ (gateway : ℕ). has maker run gateway ≡ true) way }
{}
