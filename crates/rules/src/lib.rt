// The rules for a station's act, decided from its own desk and the vehicle nearest it: why it is refused, what its desk has asked for, holds, owes and keeps
// waiting after it, and the order that a departing driver gets. Each function is equal to a definition of `working`.
#![tactic(auto)]

mod clears;
mod orders;
mod reasons;

pub use clears::{
    brought_clears, granted_in, opened_clears, replied_desk, return_clears, train_clears,
    train_movement,
};
pub use orders::{
    OPEN_FORMS, THROUGH_FORMS, clear_forms, follower_speed, tb602_speed, train_speed, vehicle_for,
};
pub use reasons::{
    begin_verdict, departure_verdict, open_verdict, receive_verdict, resume_verdict,
    return_verdict, station_verdict, train_verdict,
};
