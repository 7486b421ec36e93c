//! What is proved of all boards and all orders of their calls.
ghost use Rattle.boards.specs.Orders.{WhateverTheOrder};

use costs::Cost;

/// Whatever the order of calls on a board, whatever the network it was begun with and whatever the cost kind: each pair answered is two routes over usable links that share no link, with none cheaper; no route and one link are answered exactly when true; channels taken are those at the beginning and one for each circuit over the link; and a certificate says what its hold was asked for and answered.
pub fn whatever_the_order<C: Cost>()
    ensures { WhateverTheOrder C.Cost.ops }
{}
