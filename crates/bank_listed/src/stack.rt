// A stack of rows in a fixed array: the rows of a listed record's trees so far, each put on in its children's place (§3.4).
// A clause sees the list of the rows, newest first, as the definitions have it.
ghost use Rattle.std.specs.Prelude.{◌≡◌, ◌≤◌, ◌<◌, ◌-◌, [], ◌∷◌, drop, length};
ghost use Rattle.model.specs.Limits.{most_listed};
ghost use Rattle.model.specs.Base.{top};
ghost use Rattle.model.specs.Store.{padded};

use model::Row;
use model::limits::MOST_LISTED;
use std::marker::Model;

#[derive(Drop)]
pub struct Stack {
    rows: [u16; MOST_LISTED],
    height: usize,
}

impl Model for Stack {
    ghost use Rattle.std.specs.Prelude.{List, ℕ, ◌≤◌};
    ghost use Rattle.model.specs.Limits.{most_listed};
    ghost use Rattle.bank_listed.specs.Listed.{stack_of};

    ghost Value = { List ℕ };

    ghost view = { λ a. stack_of a.rows a.height };

    ghost invariant = { λ a. a.height ≤ most_listed };
}

impl Stack {
    // No rows.
    #[tactic(auto, unfolding(model::specs::Base::backwards))]
    pub fn new() -> Stack
        ensures { result ≡ [] }
    {
        Stack {
            rows: [0; MOST_LISTED],
            height: 0,
        }
    }

    // The top `count` rows as the child places of the next row, in order.
    pub fn top_places(&self, count: usize) -> [u32; 4]
        requires { (count ≤ 4) × (count ≤ length self.now) }
        ensures { result ≡ padded (top count self.now) }
    {
        let mut places = [0u32; 4];
        for k in 0..count {
            places[k] = u32::from(self.rows[self.height - count + k]);
        }
        places
    }

    // A row is put on in the place of the top `count` rows.
    #[tactic(auto, using(crate::proofs::Laws::ArrayStack::stack_high, crate::proofs::Laws::ArrayStack::stack_put))]
    pub fn put(&mut self, count: usize, row: Row)
        requires { (count ≤ length self.old) × (length self.old - count < most_listed) }
        ensures { self.new ≡ row.0 ∷ drop count self.old }
    {
        let at = self.height - count;
        self.rows[at] = row.0;
        self.height = at + 1;
    }

    // The one row that is left: the root of a whole record.
    pub fn root(&self) -> Row
        requires { length self.now ≡ 1 }
        ensures { self.now ≡ result.0 ∷ [] }
    {
        Row(self.rows[0])
    }
}
