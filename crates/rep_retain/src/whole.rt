//! A replica of clients beside a table of topics.

ghost use Rattle.std.proofs.Props.{props};
ghost use Rattle.rep_op.specs.Orders.{AreOfClients};

use super::asides::{put_topics_back, save_topics};
use super::holding::both_to_keep;
use super::staged::TopicsStaged;
use super::table::Topics;
use rep_model::{ClientView, Replica, TakeFault};
use rep_ops::{ClientId, Delta, Retained, deltas_of};
use rep_shared::ClientSet;
use sn_tables::sn_topic::{Filter, TopicName};
use std::alloc::Global;

/// A replica of the operations of clients beside a table of topics: together a replica. One that
/// lies aside of another has that one's table of topics only where it says so.
#[derive(Drop)]
pub struct Whole<C: ClientSet> {
    clients: C,
    topics: Topics,
    has_topics: bool,
    ghost own: { AreOfClients (C.kept clients) } by { Prim.hlevel props },
}

/// What is staged of clients beside what is staged of the table of topics.
#[derive(Drop)]
pub struct WholeStaged<S> {
    clients: S,
    topics: TopicsStaged,
}

impl<C: ClientSet> Replica for Whole<C> {
    ghost use Rattle.std.specs.Prelude.{◌++◌};
    ghost use Rattle.rep_op.specs.Orders.{AreOfClients};
    ghost use Rattle.rep_retain.specs.Tables.{ops_of};
    ghost use Rattle.rep_retain.specs.Staging.{topics_moved, IsTopicsReady};
    ghost use Rattle.rep_retain.specs.Asides.{topics_back, AreTopicsSaved};

    type Staged = WholeStaged<C::Staged>;

    ghost kept = { λ w. C.kept w.clients ++ ops_of w.topics };

    ghost after = { λ w s. C.after w.clients s.clients ++ ops_of (topics_moved w.topics s.topics) };

    ghost ready = { λ w s. C.ready w.clients s.clients
        × AreOfClients (C.after w.clients s.clients)
        × IsTopicsReady w.topics s.topics };

    ghost back = { λ w aside. C.back w.clients aside.clients
        ++ ops_of (topics_back aside.has_topics aside.topics w.topics) };

    ghost can_go_back = { λ w aside. C.can_go_back w.clients aside.clients };

    ghost is_saved = { λ aside s. C.is_saved aside.clients s.clients
        × AreTopicsSaved aside.has_topics s.topics };

    fn empty(alloc: Global) -> Result<Whole<C>, TakeFault> {
        let clients = C::empty(alloc)?;
        Ok(Whole {
            clients,
            topics: Topics::empty(alloc),
            has_topics: false,
        })
    }

    fn prepare(
        &mut self,
        alloc: Global,
        delta: &Delta,
    ) -> Result<WholeStaged<C::Staged>, TakeFault> {
        let (of_clients, of_topics) = delta.parts();
        self.topics.check(alloc, of_topics)?;
        let clients = self.clients.prepare(alloc, of_clients)?;
        match self.topics.prepare(alloc, of_topics) {
            Ok(topics) => Ok(WholeStaged { clients, topics }),
            Err(fault) => {
                drop(clients);
                Err(fault)
            }
        }
    }

    fn commit(&mut self, staged: WholeStaged<C::Staged>) {
        let WholeStaged { clients, topics } = staged;
        self.clients.commit(clients);
        self.topics.commit(topics);
    }

    fn aside(&self, alloc: Global) -> Result<Whole<C>, TakeFault> {
        let clients = self.clients.aside(alloc)?;
        Ok(Whole {
            clients,
            topics: Topics::empty(alloc),
            has_topics: false,
        })
    }

    fn save(
        &self,
        alloc: Global,
        aside: &mut Whole<C>,
        staged: &WholeStaged<C::Staged>,
    ) -> Result<(), TakeFault> {
        self.clients
            .save(alloc, &mut aside.clients, &staged.clients)?;
        save_topics(
            alloc,
            &self.topics,
            &mut aside.topics,
            &mut aside.has_topics,
            &staged.topics,
        )?;
        Ok(())
    }

    fn put_back(&mut self, aside: Whole<C>) {
        let Whole {
            clients,
            topics,
            has_topics,
        } = aside;
        self.clients.put_back(clients);
        put_topics_back(&mut self.topics, topics, has_topics);
    }

    fn view_of(&self, client: &ClientId) -> Option<&ClientView> {
        self.clients.view_of(client)
    }

    fn clients(&self, alloc: Global) -> Result<Vec<ClientId>, TakeFault> {
        self.clients.clients(alloc)
    }

    fn client_at(&self, place: usize) -> Option<(usize, &ClientId, &ClientView)> {
        self.clients.client_at(place)
    }

    fn next_candidate(
        &self,
        topic: &TopicName,
        place: usize,
    ) -> Option<(usize, &ClientId, &ClientView)> {
        self.clients.next_candidate(topic, place)
    }

    fn next_epoch(&self, client: &ClientId) -> Option<u64> {
        self.clients.next_epoch(client)
    }

    fn next_seq(&self, client: &ClientId, gateway: u8) -> Option<u64> {
        self.clients.next_seq(client, gateway)
    }

    fn retained(&self, topic: &TopicName) -> Option<&Retained> {
        self.topics.get(topic)
    }

    fn topic_at(&self, place: usize) -> Option<(usize, &TopicName, &Retained)> {
        self.topics.at(place)
    }

    fn retained_matching(
        &self,
        alloc: Global,
        asked: &Filter,
    ) -> Result<Vec<(TopicName, Retained)>, TakeFault> {
        Ok(self.topics.matching(alloc, asked)?)
    }

    fn next_clock(&self, topic: &TopicName) -> Option<u64> {
        self.topics.next_clock(topic)
    }

    fn held(&self, alloc: Global) -> Result<Vec<Delta>, TakeFault> {
        let ops = both_to_keep(alloc, &self.clients, &self.topics)?;
        Ok(deltas_of(alloc, ops)?)
    }
}
