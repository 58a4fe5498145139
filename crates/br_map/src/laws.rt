//! What holds of the topics that a field's topics become.

ghost use Rattle.std.specs.Prelude.{◌≡◌, ℕ, List, ◌<◌};
ghost use Rattle.std.specs.List.{AllByRecursion};
ghost use Rattle.br_map.specs.Mapping.{IsPrefix, broker_topic};
ghost use Rattle.mq_packet.specs.Text.{IsTopicText};
ghost use Rattle.sn_topic.specs.Topics.{IsName};

/// Every topic of a field becomes one that the broker takes.
pub fn mapped_topic()
    ensures { (prefix name : List ℕ) → IsPrefix prefix → IsName name
        → AllByRecursion (λ octet. octet < 256) name → IsTopicText (broker_topic prefix name) }
{}

/// No two topics of a field become one.
pub fn mapped_apart()
    ensures { (prefix a b : List ℕ) → AllByRecursion (λ octet. octet < 256) a
        → AllByRecursion (λ octet. octet < 256) b → broker_topic prefix a ≡ broker_topic prefix b
        → a ≡ b }
{}
