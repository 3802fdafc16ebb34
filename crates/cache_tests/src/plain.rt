// A bounded cache as one would write it first: a list of pairs, the latest used first.
use std::alloc::Global;
use std::test::Fail;

#[derive(Drop)]
pub struct Plain {
    capacity: usize,
    pairs: Vec<(u32, u32)>,
}

impl Plain {
    pub fn new(alloc: Global, capacity: usize) -> Plain {
        Plain {
            capacity,
            pairs: Vec::new(alloc),
        }
    }

    // Takes out the pair of a key.
    fn take(&mut self, key: u32) -> Option<(u32, u32)> {
        let place = self.pairs.iter().position(|pair| pair.0 == key)?;
        if place < self.pairs.len() {
            Some(self.pairs.remove(place))
        } else {
            None
        }
    }

    pub fn look(&mut self, key: u32) -> Result<Option<u32>, Fail> {
        let Some(pair) = self.take(key) else {
            return Ok(None);
        };
        self.pairs.insert(0, pair)?;
        Ok(Some(pair.1))
    }

    pub fn keep(&mut self, key: u32, value: u32) -> Result<Option<(u32, u32)>, Fail> {
        let replaced = self.take(key);
        self.pairs.insert(0, (key, value))?;
        if self.pairs.len() > self.capacity {
            Ok(self.pairs.pop())
        } else {
            Ok(replaced)
        }
    }

    pub fn last(&self) -> Option<(u32, u32)> {
        self.pairs.last().copied()
    }

    pub fn pop_last(&mut self) -> Option<(u32, u32)> {
        self.pairs.pop()
    }

    pub fn len(&self) -> usize {
        self.pairs.len()
    }
}
