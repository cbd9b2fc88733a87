// Lists of numbers for the tests.
use numbers::lists::{Names, RuleLists};
use std::alloc::{AllocError, Global};

#[derive(Drop)]
pub struct Lists {
    pub atoms: u32,
    pub integers: Vec<i32>,
    pub starts: Vec<u32>,
    pub zeros: Vec<u32>,
}

impl Lists {
    // No rules over so many atoms, without names.
    pub(crate) fn new(heap: Global, atoms: u32) -> Result<Lists, AllocError> {
        Ok(Lists {
            atoms,
            integers: Vec::new(heap),
            starts: Vec::new(heap),
            zeros: vec![in heap; 0u32; atoms as usize]?,
        })
    }

    pub(crate) fn lent(&self) -> RuleLists<'_> {
        let names = Names {
            text: &[],
            starts: &self.zeros,
            lengths: &self.zeros,
        };
        RuleLists {
            atoms: self.atoms,
            integers: &self.integers,
            starts: &self.starts,
            names,
        }
    }

    // One more rule, with so many times the same head atom and no body yet.
    pub(crate) fn begin(
        &mut self,
        head_type: i32,
        heads: u16,
        literals: u16,
    ) -> Result<(), AllocError> {
        self.starts
            .push(u32::try_from(self.integers.len()).unwrap_or(u32::MAX))?;
        self.integers.push(head_type)?;
        self.integers.push(i32::from(heads))?;
        self.repeat(1, heads)?;
        self.integers.push(0)?;
        self.integers.push(i32::from(literals))?;
        Ok(())
    }

    pub(crate) fn repeat(&mut self, integer: i32, times: u16) -> Result<(), AllocError> {
        let len = self.integers.len().saturating_add(usize::from(times));
        self.integers.resize(len, integer)
    }

    // So many constraints more, each with so many times the same literal.
    pub(crate) fn constraints(
        &mut self,
        rules: u16,
        literals: u16,
        literal: i32,
    ) -> Result<(), AllocError> {
        for _ in 0..rules {
            self.begin(0, 0, literals)?;
            self.repeat(literal, literals)?;
        }
        Ok(())
    }
}
