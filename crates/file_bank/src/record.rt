// The calls that a file in memory records, and those that fail.
ghost use Rattle.std.specs.Prelude.{◌≡◌, ◌↔◌, ◌≤◌, false, IsTrue, Contains};
ghost use Rattle.bank_trait.specs.Causes.{counted};

/// A write or sync that was carried out, with its moment.
#[derive(Clone, Copy, Debug)]
pub enum Call {
    Write {
        moment: u64,
        sector: u64,
        bytes: [u8; 512],
    },
    Sync {
        moment: u64,
    },
}

/// Which calls fail, by number from 0, how many were made, and how many have failed.
#[derive(Drop)]
pub struct Plan {
    pub made: u64,
    pub faults: u64,
    pub fails: Vec<u64>,
}

impl Plan {
    /// Whether the next call fails, which counts it.
    pub fn fails_now(&mut self) -> bool
        ensures fails { IsTrue result ↔ Contains self.old.fails.items self.old.made }
        ensures made { self.new.made ≡ counted self.old.made }
        ensures later { self.old.faults ≤ self.new.faults }
        ensures counts { IsTrue result → self.new.faults ≡ counted self.old.faults }
        ensures well { result ≡ false → self.new.faults ≡ self.old.faults }
        ensures listed { self.new.fails.items ≡ self.old.fails.items }
    {
        let listed = self.is_next_listed();
        if listed {
            self.count_fault();
        }
        listed
    }

    /// Whether the next call is listed, which numbers it and counts no fault.
    pub fn is_next_listed(&mut self) -> bool
        ensures fails { IsTrue result ↔ Contains self.old.fails.items self.old.made }
        ensures made { self.new.made ≡ counted self.old.made }
        ensures faults { self.new.faults ≡ self.old.faults }
        ensures listed { self.new.fails.items ≡ self.old.fails.items }
    {
        let number = self.made;
        self.made = number.saturating_add(1);
        self.fails.contains(&number)
    }

    /// Counts a call that failed.
    pub fn count_fault(&mut self)
        ensures later { self.old.faults ≤ self.new.faults }
        ensures faults { self.new.faults ≡ counted self.old.faults }
        ensures made { self.new.made ≡ self.old.made }
        ensures listed { self.new.fails.items ≡ self.old.fails.items }
    {
        self.faults = self.faults.saturating_add(1);
    }
}
