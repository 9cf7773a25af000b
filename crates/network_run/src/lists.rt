// The three lists of an order, which commands fill.

// At most 64 numbers, and how many they are: an order's list in fixed memory, as the network's hosts hold it.
#[derive(Drop)]
pub struct List {
    cell: [u32; 64],
    length: usize,
}

impl List {
    fn empty() -> List {
        List {
            cell: [0; 64],
            length: 0,
        }
    }

    // One number more, where there is room.
    fn push(&mut self, x: u32) {
        let n = self.length;
        if n < 64 {
            self.cell[n] = x;
            self.length = n + 1;
        }
    }

    // Its numbers.
    pub fn numbers(&self) -> &[u32] {
        &self.cell[..self.length.min(64)]
    }
}

// The lists of an order.
#[derive(Drop)]
pub struct Lists {
    pub kinds: List,
    pub indexes: List,
    pub values: List,
}

impl Lists {
    // The lists before the first entry.
    pub fn empty() -> Lists {
        Lists {
            kinds: List::empty(),
            indexes: List::empty(),
            values: List::empty(),
        }
    }

    // A number more in one of them: the case's text names the list by its number.
    pub fn push(&mut self, which: u32, x: u32) {
        match which {
            0 => self.kinds.push(x),
            1 => self.indexes.push(x),
            2 => self.values.push(x),
            _ => {}
        }
    }
}
