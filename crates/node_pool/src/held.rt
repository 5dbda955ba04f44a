// A pool may lie behind a gate.
ghost use Rattle.std.specs.Prelude.{◌≡◌, length};
ghost use Rattle.node_pool.specs.Topic.{topic_of};

use crate::pool::Pool;
use pool_gate::Held;
use rows::Problem;
use search_core::State;
use std::marker::Model;

/// What a pool is about: its problem, the state from which its history runs, with that state's
/// limit, and the numbers of its workers and analysts.
#[derive(Drop)]
pub struct Topic {
    problem: Problem,
    base: State,
    workers: u32,
    analysts: u32,
}

impl Model for Topic {
    ghost use Rattle.rows.specs.contracts.problem.Problem.{the_row as the_problem};
    ghost use Rattle.node_pool.specs.Topic.{TopicParts};
    ghost use Rattle.node_pool.specs.Inner.Codes.{topic_code};

    ghost Value = { TopicParts };

    ghost coded = { topic_code the_problem.coded };

    ghost view = { λ a. record {
      problem = a.problem;
      base = a.base.search;
      workers = a.workers;
      analysts = a.analysts;
    } };
}

impl Held for Pool {
    type About = Topic;

    ghost about = { topic_of };

    ghost count = { λ pool. length pool.history };

    fn count(&self) -> u64 {
        let _library = self.library();
        self.history.entries().len() as u64
    }
}
