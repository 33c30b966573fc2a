// The users of each action: the actions that take an input from it.
ghost use Rattle.std.specs.Prelude.{◌≡◌, ◌<◌, ◌≤◌, ◌^◌, IfOk, length, map, replicate, slice_index_or, []};
ghost use Rattle.ready_order.specs.Board.{affected, AreUsers, IsAdded, shapes};

use crate::{ActionState, has_success};
use plain_values::NoMemory;
use std::alloc::Global;
use std::marker::Model;

// For each action, the actions that take an input from it. The table doesn't change.
#[derive(Drop)]
pub struct Users {
    lists: Vec<Vec<u32>>,
}

impl Model for Users {
    ghost use Rattle.std.specs.Prelude.{List, ℕ, map};

    ghost Value = { List (List ℕ) };

    ghost view = { λ u. map (λ v. v.items) u.lists.items };
}

impl Users {
    pub fn of(alloc: Global, actions: &[ActionState]) -> Result<Users, NoMemory>
        requires { length actions.now ≤ 2 ^ 32 }
        ensures { IfOk result (λ u. AreUsers (shapes actions.now) (length actions.now) u) }
    {
        let mut lists = empty_lists(alloc, actions.len())?;
        for (number, action) in actions.iter().enumerate() {
            add_user(&mut lists, action.producers.as_slice(), number as u32)?;
        }
        Ok(Users { lists })
    }

    pub fn of_action(&self, number: usize) -> &[u32]
        requires { number < length self.now }
        ensures { result.now ≡ slice_index_or self.now number [] }
    {
        self.lists[number].as_slice()
    }

    // Returns the users of the action if its success changes. The state of their inputs is about to
    // change.
    pub fn affected(&self, actions: &[ActionState], action: u32, success: bool) -> &[u32]
        requires { action < length self.now }
        ensures { result.now ≡ affected actions.now self.now action success }
    {
        if has_success(actions, action) != success {
            self.of_action(action as usize)
        } else {
            &[]
        }
    }
}

fn empty_lists(alloc: Global, count: usize) -> Result<Vec<Vec<u32>>, NoMemory>
    ensures { IfOk result (λ v. map (λ l. l.items) v.items ≡ replicate count []) }
{
    let mut lists = Vec::with_capacity(alloc, count)?;
    for _action in 0..count {
        lists.push(Vec::new(alloc))?;
    }
    Ok(lists)
}

// Adds the user to the list of each producer.
fn add_user(lists: &mut [Vec<u32>], producers: &[u32], user: u32) -> Result<(), NoMemory>
    ensures { IfOk result (λ _. IsAdded producers.now user
        (map (λ l. l.items) lists.old) (map (λ l. l.items) lists.new)) }
{
    for producer in producers {
        let producer = *producer as usize;
        if producer < lists.len() {
            let list = &mut lists[producer];
            list.push(user)?;
        }
    }
    Ok(())
}
