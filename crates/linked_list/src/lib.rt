// Doubly-linked lists over numbers. Ported from src/linked_list.rs of pliron 0.20.0 (Apache-2.0): its functions by name and in its
// order. `nth`, `count`, `insert_at`, `init` and `check_links` are added. Where pliron's functions panic, these require.
//
// All is in one lent slice `s` of 2 * nc + 3 * nn numbers: for nc containers the heads, then the tails; for nn nodes the nexts,
// then the prevs, then the containers. A stored 0 means none, and k + 1 means k.
#![tactic(auto)]

ghost use Rattle.std.specs.Prelude.{◌≡◌, ◌≢◌, [], ◌∷◌, ◌++◌, ◌+◌, ◌*◌, ◌^◌, ◌<◌, ◌≤◌, Some, get_or, length, is_some, nat_eq, slice_get};
ghost use Rattle.std.specs.Option.{option_eq};
ghost use Rattle.std.proofs.Math.Decide.{ℕ_discrete};
ghost use Rattle.seqs.specs.Seqs.{Says, seq_insert_at, without};
ghost use Rattle.seqs.specs.Cells.{code, decoded};
ghost use Rattle.linked_list.specs.Links.{after, before, home, Linked, lists, row, container, list_of, Sizes};
ghost use Rattle.linked_list.specs.Links.{Rowed, Appended, Emptied, put_in, taken_out_of, insert_after, insert_before};
ghost use Rattle.linked_list.specs.Links.{next_in, prev_in, last_in, row_of, cont_of, HomeIn};
ghost use Rattle.linked_list.specs.Check.{RowFound, RowsFound, FreesFound};
ghost use Rattle.std.specs.Iterator.{YieldsFirst, item_count};

use std::marker::Model;

/// The sizes of a family of lists in one slice: nc containers and nn nodes.
#[derive(Clone, Copy)]
pub struct Lists {
    pub nc: usize,
    pub nn: usize,
    pub ghost sizes: { Sizes nc nn },
}

/// The nodes of a list, in order: seen as those that are still to come.
#[derive(Drop)]
pub struct Nodes<'a> {
    lists: Lists,
    words: &'a [u32],

    // As it is stored: a step then reads one word.
    next: u32,
}

impl<'a> Model for Nodes<'a> {
    ghost use Rattle.std.specs.Prelude.{ℕ, List};
    ghost use Rattle.linked_list.specs.Links.{rest_from, OnRow};
    ghost use Rattle.seqs.specs.Cells.{decoded};

    ghost Value = { List ℕ };

    ghost view = { λ it. rest_from it.lists.nc it.lists.nn it.words.now (decoded it.next) };

    ghost invariant = { λ it. OnRow it.lists.nc it.lists.nn it.words.now (decoded it.next) };
}

impl<'a> Iterator for Nodes<'a> {
    type Item = usize;

    ghost next_gives = { YieldsFirst (λ rest. rest) };

    ghost remaining = { item_count (λ rest. rest) };

    #[inline(always)]
    fn next(&mut self) -> Option<usize> {
        // Tested before it is decoded: a None would have a payload too, and each step would choose between the two.
        if self.next == 0 {
            return None;
        }
        let n = decode(self.next).unwrap();
        self.next = self.words[self.lists.next_slot(n)];
        Some(n)
    }
}

// What a stored number means.
#[inline(always)]
fn decode(stored: u32) -> Option<usize>
    ensures { result ≡ decoded stored }
{
    (stored as usize).checked_sub(1)
}

// How a node, a container or none is stored.
#[inline(always)]
fn encode(k: Option<usize>) -> u32
    requires fits { code k < 2 ^ 32 }
    ensures { result ≡ code k }
{
    match k {
        None => 0,
        Some(k) => (k + 1) as u32,
    }
}

impl Lists {
    // Where `s` has the node n's next.
    #[inline(always)]
    fn next_slot(self, n: usize) -> usize
        requires n_lt_nn { n < self.nn }
        ensures { (result ≡ 2 * self.nc + n) × (result < 2 * self.nc + 3 * self.nn) }
    {
        2 * self.nc + n
    }

    // Where `s` has the node n's prev.
    #[inline(always)]
    fn prev_slot(self, n: usize) -> usize
        requires n_lt_nn { n < self.nn }
        ensures { (result ≡ 2 * self.nc + self.nn + n) × (result < 2 * self.nc + 3 * self.nn) }
    {
        2 * self.nc + self.nn + n
    }

    // Where `s` has the node n's container.
    #[inline(always)]
    fn home_slot(self, n: usize) -> usize
        requires n_lt_nn { n < self.nn }
        ensures { (result ≡ home self.nc self.nn n) × (result < 2 * self.nc + 3 * self.nn) }
    {
        2 * self.nc + 2 * self.nn + n
    }

    // Where `s` has what follows p in c's list: c's head for none, and else the node's next.
    #[inline(always)]
    fn slot_after(self, p: Option<usize>, c: usize) -> usize
        requires c_lt_nc { (c < self.nc) × (code p ≤ self.nn) }
        ensures { (result ≡ after self.nc (code p) c) × (result < 2 * self.nc + 3 * self.nn) }
    {
        match p {
            None => c,
            Some(k) => self.next_slot(k),
        }
    }

    // Where `s` has what precedes q in c's list: c's tail for none, and else the node's prev.
    #[inline(always)]
    fn slot_before(self, q: Option<usize>, c: usize) -> usize
        requires c_lt_nc { (c < self.nc) × (code q ≤ self.nn) }
        ensures { (result ≡ before self.nc self.nn (code q) c) × (result < 2 * self.nc + 3 * self.nn) }
    {
        match q {
            None => self.nc + c,
            Some(k) => self.prev_slot(k),
        }
    }

    // Stores that the node n stands between p and q in container c's list. As head and tail are stored like the next and the
    // prev of a node, no case has stores of its own.
    #[inline(always)]
    fn put_in(self, s: &mut [u32], c: usize, p: Option<usize>, q: Option<usize>, n: usize)
        requires s_len { length s.old ≡ 2 * self.nc + 3 * self.nn }
        requires c_lt_nc { c < self.nc }
        requires p_le_nn { (code p ≤ self.nn) × (code q ≤ self.nn) }
        requires n_lt_nn { n < self.nn }
        ensures { s.new ≡ put_in self.nc self.nn c (code p) (code q) n s.old }
    {
        let a = self.slot_after(p, c);
        let b = self.slot_before(q, c);
        s[a] = encode(Some(n));
        s[b] = encode(Some(n));
        s[self.next_slot(n)] = encode(q);
        s[self.prev_slot(n)] = encode(p);
        s[self.home_slot(n)] = encode(Some(c));
    }

    // Stores that p and q of container c's list stand side by side, and the node n, which stood between them, in no list.
    #[inline(always)]
    fn take_out(self, s: &mut [u32], c: usize, p: Option<usize>, q: Option<usize>, n: usize)
        requires s_len { length s.old ≡ 2 * self.nc + 3 * self.nn }
        requires c_lt_nc { c < self.nc }
        requires p_le_nn { (code p ≤ self.nn) × (code q ≤ self.nn) }
        requires n_lt_nn { n < self.nn }
        ensures { s.new ≡ taken_out_of self.nc self.nn c (code p) (code q) n s.old }
    {
        let a = self.slot_after(p, c);
        let b = self.slot_before(q, c);
        s[a] = encode(q);
        s[b] = encode(p);
        s[self.next_slot(n)] = encode(None);
        s[self.prev_slot(n)] = encode(None);
        s[self.home_slot(n)] = encode(None);
    }

    /// The head of c's list.
    #[inline(always)]
    pub fn get_head(self, s: &[u32], c: usize) -> Option<usize>
        requires linked { Linked self.nc self.nn s.now }
        requires c_lt_nc { c < self.nc }
        ensures { result ≡ slice_get (row self.nc self.nn s.now c) 0 }
    {
        decode(s[c])
    }

    /// The tail of c's list.
    #[inline(always)]
    pub fn get_tail(self, s: &[u32], c: usize) -> Option<usize>
        requires linked { Linked self.nc self.nn s.now }
        requires c_lt_nc { c < self.nc }
        ensures { result ≡ last_in (row self.nc self.nn s.now c) }
    {
        decode(s[self.nc + c])
    }

    /// The nodes of c's list, from its head on.
    #[inline(always)]
    pub fn iter(self, s: &[u32], c: usize) -> Nodes<'_>
        requires linked { Linked self.nc self.nn s.now }
        requires c_lt_nc { c < self.nc }
        ensures { result ≡ row self.nc self.nn s.now c }
    {
        Nodes {
            lists: self,
            words: s,
            next: s[c],
        }
    }

    /// The node at index i of c's list, found by a walk.
    pub fn nth(self, s: &[u32], c: usize, i: usize) -> usize
        requires linked { Linked self.nc self.nn s.now }
        requires c_lt_nc { c < self.nc }
        requires i_in_bounds { i < length (row self.nc self.nn s.now c) }
        ensures { result ≡ get_or (row self.nc self.nn s.now c) i 0 }
    {
        self.iter(s, c).nth(i).unwrap()
    }

    /// How many nodes c's list has, counted by a walk.
    pub fn count(self, s: &[u32], c: usize) -> usize
        requires linked { Linked self.nc self.nn s.now }
        requires c_lt_nc { c < self.nc }
        ensures { result ≡ length (row self.nc self.nn s.now c) }
    {
        self.iter(s, c).count()
    }

    /// The node after n in the list that has n; none for a node in no list.
    #[inline(always)]
    pub fn get_next(self, s: &[u32], n: usize) -> Option<usize>
        requires linked { Linked self.nc self.nn s.now }
        requires n_lt_nn { n < self.nn }
        ensures { result ≡ next_in n (row_of n (lists self.nc self.nn s.now)) }
    {
        decode(s[self.next_slot(n)])
    }

    /// The node before n in the list that has n; none for a node in no list.
    #[inline(always)]
    pub fn get_prev(self, s: &[u32], n: usize) -> Option<usize>
        requires linked { Linked self.nc self.nn s.now }
        requires n_lt_nn { n < self.nn }
        ensures { result ≡ prev_in n (row_of n (lists self.nc self.nn s.now)) }
    {
        decode(s[self.prev_slot(n)])
    }

    /// The container whose list has n: none exactly if no list has n, and c exactly if c's list has it.
    #[inline(always)]
    pub fn get_container(self, s: &[u32], n: usize) -> Option<usize>
        requires linked { Linked self.nc self.nn s.now }
        requires n_lt_nn { n < self.nn }
        ensures container { result ≡ cont_of n (lists self.nc self.nn s.now) }
        ensures home { HomeIn self.nc (lists self.nc self.nn s.now) n result }
    {
        decode(s[self.home_slot(n)])
    }

    /// Does c's list have the node n? What is stored is compared: `get_container` would decode it first.
    #[inline(always)]
    pub fn has(self, s: &[u32], c: usize, n: usize) -> bool
        requires linked { Linked self.nc self.nn s.now }
        requires c_lt_nc { c < self.nc }
        requires n_lt_nn { n < self.nn }
        ensures { result ≡ option_eq nat_eq (cont_of n (lists self.nc self.nn s.now)) (Some c) }
    {
        s[self.home_slot(n)] == encode(Some(c))
    }

    /// Appends all nodes of the list of `donor` to the back of the list of `donee`, and leaves `donor` empty. The two must differ.
    pub fn append_linked_list(self, s: &mut [u32], donee: usize, donor: usize)
        requires linked { Linked self.nc self.nn s.old }
        requires donee_lt_nc { (donee < self.nc) × (donor < self.nc) × (donee ≢ donor) }
        ensures { Appended self.nc self.nn s.old s.new donee donor }
    {
        while let Some(n) = self.get_head(s, donor) {
            self.unlink(s, n);
            self.insert_at_back(s, donee, n);
        }
    }

    /// Inserts the node n, which must be in no list, after the node m, which must be in one.
    pub fn insert_after(self, s: &mut [u32], m: usize, n: usize)
        requires linked { Linked self.nc self.nn s.old }
        requires m_lt_nn { (m < self.nn) × (n < self.nn) }
        requires nonzero { 0 < get_or s.old (home self.nc self.nn m) 0 }
        requires n_value { get_or s.old (home self.nc self.nn n) 0 ≡ 0 }
        ensures { Rowed self.nc self.nn s.old s.new (container self.nc self.nn s.old m) (insert_after m n (list_of self.nc self.nn s.old m)) n (container self.nc self.nn s.old m + 1) }
    {
        let c = self.get_container(s, m).unwrap();
        let q = self.get_next(s, m);
        self.put_in(s, c, Some(m), q, n);
    }

    /// Inserts the node n, which must be in no list, before the node m, which must be in one.
    pub fn insert_before(self, s: &mut [u32], m: usize, n: usize)
        requires linked { Linked self.nc self.nn s.old }
        requires m_lt_nn { (m < self.nn) × (n < self.nn) }
        requires nonzero { 0 < get_or s.old (home self.nc self.nn m) 0 }
        requires n_value { get_or s.old (home self.nc self.nn n) 0 ≡ 0 }
        ensures { Rowed self.nc self.nn s.old s.new (container self.nc self.nn s.old m) (insert_before m n (list_of self.nc self.nn s.old m)) n (container self.nc self.nn s.old m + 1) }
    {
        let c = self.get_container(s, m).unwrap();
        let p = self.get_prev(s, m);
        self.put_in(s, c, p, Some(m), n);
    }

    /// Inserts the node n, which must be in no list, as the head of container c's list.
    pub fn insert_at_front(self, s: &mut [u32], c: usize, n: usize)
        requires linked { Linked self.nc self.nn s.old }
        requires c_lt_nc { (c < self.nc) × (n < self.nn) }
        requires n_value { get_or s.old (home self.nc self.nn n) 0 ≡ 0 }
        ensures { Rowed self.nc self.nn s.old s.new c (n ∷ row self.nc self.nn s.old c) n (c + 1) }
    {
        let q = self.get_head(s, c);
        self.put_in(s, c, None, q, n);
    }

    /// Inserts the node n, which must be in no list, as the tail of container c's list.
    pub fn insert_at_back(self, s: &mut [u32], c: usize, n: usize)
        requires linked { Linked self.nc self.nn s.old }
        requires c_lt_nc { (c < self.nc) × (n < self.nn) }
        requires n_value { get_or s.old (home self.nc self.nn n) 0 ≡ 0 }
        ensures { Rowed self.nc self.nn s.old s.new c (row self.nc self.nn s.old c ++ n ∷ []) n (c + 1) }
    {
        let p = self.get_tail(s, c);
        self.put_in(s, c, p, None, n);
    }

    /// Inserts the node n, which must be in no list, at index i of container c's list, or at its back where i is past the end.
    pub fn insert_at(self, s: &mut [u32], c: usize, i: usize, n: usize)
        requires linked { Linked self.nc self.nn s.old }
        requires c_lt_nc { (c < self.nc) × (n < self.nn) }
        requires n_value { get_or s.old (home self.nc self.nn n) 0 ≡ 0 }
        ensures { Rowed self.nc self.nn s.old s.new c (seq_insert_at i n (row self.nc self.nn s.old c)) n (c + 1) }
    {
        if i < self.count(s, c) {
            let m = self.nth(s, c, i);
            self.insert_before(s, m, n);
        } else {
            self.insert_at_back(s, c, n);
        }
    }

    /// Is the node n part of a list?
    #[inline(always)]
    pub fn is_linked(self, s: &[u32], n: usize) -> bool
        requires linked { Linked self.nc self.nn s.now }
        requires n_lt_nn { n < self.nn }
        ensures { result ≡ is_some (cont_of n (lists self.nc self.nn s.now)) }
    {
        self.get_container(s, n).is_some()
    }

    /// Unlinks the node n from the list that it must be in.
    pub fn unlink(self, s: &mut [u32], n: usize)
        requires linked { Linked self.nc self.nn s.old }
        requires n_lt_nn { n < self.nn }
        requires nonzero { 0 < get_or s.old (home self.nc self.nn n) 0 }
        ensures { Rowed self.nc self.nn s.old s.new (container self.nc self.nn s.old n) (without ℕ_discrete n (list_of self.nc self.nn s.old n)) n 0 }
    {
        let c = self.get_container(s, n).unwrap();
        let p = self.get_prev(s, n);
        let q = self.get_next(s, n);
        self.take_out(s, c, p, q, n);
    }

    // Kept (point 2): fill says what the cells hold; this says what zeros mean here, every list empty, and its callers go by that.
    /// Makes every list empty, whatever `s` held.
    pub fn init(self, s: &mut [u32])
        requires s_len { length s.old ≡ 2 * self.nc + 3 * self.nn }
        ensures { Emptied self.nc self.nn s.new }
    {
        s.fill(0);
    }

    // Kept (point 3): these links are not yet known to be a list's, so that no iterator over them can say what comes, or that it ends.
    // The length of c's list, if that is well formed and has at most b nodes. Links are compared as they are stored.
    fn check_row(self, s: &[u32], c: usize, b: usize) -> Option<usize>
        requires s_len { length s.now ≡ 2 * self.nc + 3 * self.nn }
        requires c_lt_nc { c < self.nc }
        requires b_le_nn { b ≤ self.nn }
        ensures { RowFound self.nc self.nn s.now c b result }
    {
        let home = encode(Some(c));
        let mut p = 0;
        let mut q = s[c];
        let mut j = 0;
        while let Some(x) = decode(q) {
            if j >= b || x >= self.nn {
                return None;
            }
            if s[self.home_slot(x)] != home || s[self.prev_slot(x)] != p {
                return None;
            }
            p = q;
            q = s[self.next_slot(x)];
            j += 1;
        }
        if s[self.nc + c] == p { Some(j) } else { None }
    }

    // The nodes of all the lists, if they are well formed and have at most nn nodes together.
    fn check_rows(self, s: &[u32]) -> Option<usize>
        requires s_len { length s.now ≡ 2 * self.nc + 3 * self.nn }
        ensures { RowsFound self.nc self.nn s.now result }
    {
        let mut t: usize = 0;
        for c in 0..self.nc {
            t += self.check_row(s, c, self.nn - t)?;
        }
        Some(t)
    }

    // How many nodes have no container, if those have no next and no prev.
    fn check_frees(self, s: &[u32]) -> Option<usize>
        requires s_len { length s.now ≡ 2 * self.nc + 3 * self.nn }
        ensures { FreesFound self.nc self.nn s.now result }
    {
        let mut f: usize = 0;
        for n in 0..self.nn {
            if decode(s[self.home_slot(n)]).is_none() {
                if decode(s[self.next_slot(n)]).is_some()
                    || decode(s[self.prev_slot(n)]).is_some()
                {
                    return None;
                }
                f += 1;
            }
        }
        Some(f)
    }

    /// Is `s` well linked? For a slice of any contents. Nodes that only point at each other, outside every list, are found by count.
    pub fn check_links(self, s: &[u32]) -> bool
        requires s_len { length s.now ≡ 2 * self.nc + 3 * self.nn }
        ensures { Says result (Linked self.nc self.nn s.now) }
    {
        match (self.check_rows(s), self.check_frees(s)) {
            (Some(t), Some(f)) => t + f == self.nn,
            _ => false,
        }
    }
}
