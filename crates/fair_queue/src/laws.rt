//! Laws: lemmas about lists that have the same items, and about tickets that are cut and joined.
//! The functions do nothing; their contracts are the statements.

ghost use Rattle.std.specs.Prelude.{◌≡◌, ◌≤◌, ◌<◌, ◌++◌, ℕ, Bool, List, All, Contains};
ghost use Rattle.std.specs.Prelude.{IsPermutation, count_by, flat_map, length, map, replicate};
ghost use Rattle.fair_queue.specs.Items.{SameItems};
ghost use Rattle.fair_queue.specs.Tickets.{IsWhole, TicketView, new_ticket, with_fewer_parts};
ghost use Rattle.fair_queue.specs.Tickets.{ticket_of_all, ticket_of_both};

/// Two lists have the same items exactly if one is a permutation of the other.
pub fn same_items_are_permutations<X>()
    ensures permuted { (xs ys : List X) → SameItems xs ys → IsPermutation xs ys }
    ensures same { (xs ys : List X) → IsPermutation xs ys → SameItems xs ys }
{}

/// Lists with the same items have the same length, an item of one is in the other, and the same
/// number of items of each pass a test.
pub fn same_items_are_as_many<X>()
    ensures length { (xs ys : List X) → SameItems xs ys → length xs ≡ length ys }
    ensures contained { (xs ys : List X) (x : X) → SameItems xs ys → Contains xs x → Contains ys x }
    ensures tested { (test : X → Bool) (xs ys : List X) → SameItems xs ys →
        count_by test xs ≡ count_by test ys }
{}

/// If two lists have the same items, they still do after lists with the same items are appended to
/// them, or cut off. In which order two lists are appended doesn't matter.
pub fn same_items_of_appends<X>()
    ensures appended { (xs ys us vs : List X) → SameItems xs ys → SameItems us vs →
        SameItems (xs ++ us) (ys ++ vs) }
    ensures cut { (xs ys us vs : List X) → SameItems (xs ++ us) (ys ++ vs) → SameItems us vs →
        SameItems xs ys }
    ensures turned { (xs ys : List X) → SameItems (xs ++ ys) (ys ++ xs) }
{}

/// If two lists have the same items, so have their images under a function, whether it makes one
/// thing of each item or many.
pub fn same_items_of_images<X, Y>()
    ensures one { (f : X → Y) (xs ys : List X) → SameItems xs ys →
        SameItems (map f xs) (map f ys) }
    ensures many { (f : X → List Y) (xs ys : List X) → SameItems xs ys →
        SameItems (flat_map f xs) (flat_map f ys) }
{}

/// Cutting new tickets off a ticket and joining them again, unused, leaves the ticket as it was.
/// However they were used, a ticket that had every part then has every part again.
pub fn tickets_cut_and_joined_balance<X>()
    ensures one { (ticket : TicketView X) → 0 < ticket.parts →
        ticket_of_both (with_fewer_parts ticket 1) (new_ticket ticket.queue) ≡ ticket }
    ensures many { (ticket : TicketView X) (count : ℕ) → count ≤ ticket.parts →
        ticket_of_all (with_fewer_parts ticket count) (replicate count (new_ticket ticket.queue))
        ≡ ticket }
    ensures whole { (ticket : TicketView X) (others : List (TicketView X)) → IsWhole ticket →
        All (λ other. other.parts ≡ 1) others → length others ≤ ticket.parts →
        IsWhole (ticket_of_all (with_fewer_parts ticket (length others)) others) }
{}
