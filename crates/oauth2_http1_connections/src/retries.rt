//! An HTTP client that sends a request again if that is safe.

mod answer;
mod law;
mod limits;
mod pause;
mod retrying;
mod sleeping_client;
mod tells_unsent;

pub use law::{
    each_copy_is_the_request, each_other_request_is_sent_once, each_unsent_error_opened_nothing,
};
pub use limits::RetryLimits;
pub use retrying::Retrying;
pub use sleeping_client::{SleepingClient, WithSleep};
pub use tells_unsent::TellsUnsent;
