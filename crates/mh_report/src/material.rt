//! What a play is made of, once everything is read.
use mh_base::Seq;
use mh_model::File;
use mh_script::Command;
use mh_service::Service;

/// What a play is made of.
#[derive(Drop)]
pub struct Material {
    pub service: Service,
    /// The content files that the service names, in order.
    pub files: Seq<File>,
    pub commands: Seq<Command>,
}
