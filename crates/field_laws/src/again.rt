//! A law of a field: nothing but the events fixes a run.

ghost use Rattle.std.specs.Prelude.{◌≡◌, ◌≢◌, List, map};
ghost use Rattle.sn_local.specs.declared.config.Config.{Config};
ghost use Rattle.gw_world.specs.declared.event.Event.{Event};
ghost use Rattle.gw_world.specs.declared.event.Answer.{Answer};
ghost use Rattle.gw_world.specs.declared.world.WorldFault.{WorldFault};
ghost use Rattle.gw_world.specs.declared.world.WorldFault.TheVariants as stops;
ghost use Rattle.gw_world.specs.Field.{Field, new_field, Run};
ghost use Rattle.gw_world.specs.Telling.{answer_value};
ghost use Rattle.gw_world.specs.Worlds.{IsStop};

/// Nothing but the events fixes a run. Two runs of the same events from the same configs say the
/// same to each event, and lead to the same field: the same gateways, with the same sets, local
/// states and disks, and the same list of deltas. Up to want of memory, one event alone stops a
/// run, for one reason, and what can run to its end is not stopped.
pub fn one_run()
    ensures one { (configs : List Config) (events : List Event) (answers others : List Answer)
        (one other : Field)
        → Run (new_field configs) events answers one → Run (new_field configs) events others other
        → (map answer_value answers ≡ map answer_value others) × (one ≡ other) }
    ensures stop { (configs : List Config) (events : List Event) (one other : WorldFault)
        → IsStop configs events one → IsStop configs events other → one ≢ stops.Memory
        → other ≢ stops.Memory → one ≡ other }
    ensures ends { (configs : List Config) (events : List Event) (answers : List Answer)
        (field : Field) (fault : WorldFault)
        → Run (new_field configs) events answers field → IsStop configs events fault
        → fault ≡ stops.Memory }
{}
