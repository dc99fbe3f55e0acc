//! Counts hands by the lowest hand of each class, and the different scores among them.
use hand_order::Score;
use std::alloc::{AllocError, Global};
use std::collections::HashSet;

/// A class of hands: its name, its lowest score, and how many of its hands were counted.
#[derive(Drop)]
pub struct Class {
    pub name: &'static str,
    pub least: Score,
    pub hands: u32,
}

/// Hands by class, from the best class, and those without a score.
#[derive(Drop)]
pub struct Tally {
    classes: Vec<Class>,
    scores: HashSet<u32>,
    unscored: u32,
}

impl Tally {
    /// A tally without classes and hands.
    pub fn new(alloc: Global) -> Self {
        Tally {
            classes: Vec::new(alloc),
            scores: HashSet::new(alloc),
            unscored: 0,
        }
    }

    /// Adds a class below the others.
    pub fn add_class(&mut self, name: &'static str, least: Score) -> Result<(), AllocError> {
        self.classes.push(Class {
            name,
            least,
            hands: 0,
        })?;
        Ok(())
    }

    /// Counts a hand in the first class whose lowest score it reaches.
    pub fn count(&mut self, score: Option<Score>) -> Result<(), AllocError> {
        let Some(score) = score else {
            self.unscored = self.unscored.saturating_add(1);
            return Ok(());
        };
        self.scores.insert(score.points)?;
        for class in self.classes.iter_mut() {
            if score >= class.least {
                class.hands = class.hands.saturating_add(1);
                return Ok(());
            }
        }
        Ok(())
    }

    /// The classes with their counts, in the order in which they were added.
    pub fn classes(&self) -> &[Class] {
        self.classes.as_slice()
    }

    /// How many hands have no score in the order.
    pub fn unscored(&self) -> u32 {
        self.unscored
    }

    /// How many different scores there are among all hands.
    pub fn different_scores(&self) -> usize {
        self.scores.len()
    }
}
