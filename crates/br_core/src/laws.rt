//! What holds of every run of a bridge, whatever a program does with it.

ghost use Rattle.std.specs.Prelude.{◌≡◌, true, ℕ, [], ◌∷◌, ◌++◌, ◌⊎◌, List};
ghost use Rattle.sn_frame.specs.declared.flags.Flags.{Flags};
ghost use Rattle.br_core.specs.declared.event.Event.{Event};
ghost use Rattle.br_core.specs.declared.item.Item.{Item};
ghost use Rattle.br_core.specs.declared.settings.Settings.{Settings};
ghost use Rattle.br_core.specs.Runs.{AreAllowed, Come, Handed, IsAtOne, IsIn, IsOne, TakesItsNumber, Rises, after, run_done, firsts, found_again, publish_comes, stepped};
ghost use Rattle.br_core.specs.Steps.{comes_in_order};

/// What was taken from one side is acknowledged there only after the other side has acknowledged
/// it, or after the spool has it, or after a line of what no side will have is on the disk. What
/// goes to the broker and into the spool is what came: its octets, under the topic of its name. A
/// lane acknowledges only a message that took a number, which is then in the bridge (`takes_in`).
/// What goes to the gateway as a command, or into a line, came from the broker. The spool forgets
/// only what the broker has. It holds of every list of events, whatever the sides send. The
/// function does nothing; its contract is the law.
pub fn acknowledges_behind()
    ensures { (settings : Settings) (before : List Come) (event : Event) (moment : ℕ)
        → AreAllowed settings (before ++ (event, moment) ∷ [])
        (stepped settings (after settings before) (event, moment)).out }
{}

/// A PUBLISH of quality of service 1 that comes over a lane takes the next number, and its reading
/// waits in the bridge or is in flight to the broker, and is to go into the spool, if there is one;
/// or it takes none, and its gateway is owed an acknowledgement still. The function does nothing;
/// its contract is the law.
pub fn takes_in()
    ensures { (settings : Settings) (before : List Come) (place topic msg_id moment : ℕ)
        (flags : Flags) (body : List ℕ) → IsAtOne flags
        → TakesItsNumber settings before (publish_comes place flags topic msg_id body moment) }
{}

/// A reading of quality of service 1 that the spool has kept since before the bridge began waits in
/// it again, or is in flight, if it is found in its order. The function does nothing; its contract
/// is the law.
pub fn finds_again()
    ensures { (settings : Settings) (before : List Come) (item : Item) (moment : ℕ)
        → IsOne item.qos → comes_in_order item (after settings before) ≡ true
        → IsIn item.number (stepped settings (after settings before) (found_again item moment)) }
{}

/// A reading of quality of service 1 that waits in the bridge, or is in flight to the broker, stays
/// so until the broker has acknowledged it, whatever comes meanwhile. The function does nothing;
/// its contract is the law.
pub fn nothing_drops()
    ensures { (settings : Settings) (before later : List Come) (number : ℕ)
        → IsIn number (after settings before) → Handed settings (before ++ later) number
        ⊎ IsIn number (after settings (before ++ later)) }
{}

/// Readings go to the broker for the first time in the order in which lanes brought them or they
/// were found, each of them once: the numbers that they get as they come go up. So each lane keeps
/// its order. The function does nothing; its contract is the law.
pub fn keeps_order()
    ensures { (settings : Settings) (run : List Come)
        → Rises 0 (firsts (run_done settings run)) (after settings run).number }
{}
